//! Numbers at the front of bytes.

ghost use Rattle.theory_spelling.specs.Reading.{byte_at, number_at, truth_at, whole_at};
ghost use Rattle.csp_spell.specs.Gives.{Gives};

use crate::fault::UnpackFault;

/// The first byte, and the bytes behind it.
pub(crate) fn read_byte(bytes: &[u8]) -> Result<(u8, &[u8]), UnpackFault>
    ensures { Gives (λ x. (x.0, x.1.now)) result (byte_at bytes.now) }
{
    match bytes {
        [] => Err(UnpackFault::NotATerm),
        [first, rest @ ..] => Ok((*first, rest)),
    }
}

/// The number at the front, and the bytes behind it.
#[tactic(auto, unfolding(theory_spelling::specs::Reading::number_at))]
pub(crate) fn read_number(bytes: &[u8]) -> Result<(u32, &[u8]), UnpackFault>
    ensures { Gives (λ x. (x.0, x.1.now)) result (number_at bytes.now) }
{
    if bytes.len() < 4 {
        return Err(UnpackFault::NotATerm);
    }
    let (front, rest) = bytes.split_at(4);
    let number = u32::from_le_bytes([front[0], front[1], front[2], front[3]]);
    Ok((number, rest))
}

/// The whole number at the front, and the bytes behind it.
#[tactic(auto, unfolding(theory_spelling::specs::Reading::whole_at))]
pub(crate) fn read_whole(bytes: &[u8]) -> Result<(i32, &[u8]), UnpackFault>
    ensures { Gives (λ x. (x.0, x.1.now)) result (whole_at bytes.now) }
{
    let (number, rest) = read_number(bytes)?;
    Ok((number.cast_signed(), rest))
}

/// The truth value at the front, and the bytes behind it.
#[tactic(auto, unfolding(theory_spelling::specs::Reading::truth_at))]
pub(crate) fn read_truth(bytes: &[u8]) -> Result<(bool, &[u8]), UnpackFault>
    ensures { Gives (λ x. (x.0, x.1.now)) result (truth_at bytes.now) }
{
    match bytes {
        [0, rest @ ..] => Ok((false, rest)),
        [1, rest @ ..] => Ok((true, rest)),
        _ => Err(UnpackFault::NotATerm),
    }
}
