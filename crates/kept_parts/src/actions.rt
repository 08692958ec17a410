//! Actions by numbers.

ghost use Rattle.std.specs.Prelude.{◌≡◌, length};
ghost use Rattle.csp_value.specs.Action.{action_of};
ghost use Rattle.csp_rows.specs.Numbering.{IsNumbered};
ghost use Rattle.kept_parts.specs.Places.{IsActionAmong, action_in};

use csp_numbers::Alphabet;
use csp_rows::ActionId;
use csp_term::{Action, AllocHandle};

/// The number of an action that is none by an event but those of the alphabet.
pub(crate) fn action_number<A: AllocHandle>(alphabet: &Alphabet<A>, action: &Action<A>) -> ActionId
    requires { IsActionAmong alphabet.now (action_of action.now) }
    ensures value { action_in alphabet.now result ≡ action_of action.now }
    ensures numbered { IsNumbered (length alphabet.now) result }
{
    match action {
        Action::Tau => ActionId::Tau,
        Action::Tick => ActionId::Tick,
        Action::Event(event) => match alphabet.number(event) {
            Some(number) => ActionId::Event(number),
            None => unreachable!(),
        },
    }
}
