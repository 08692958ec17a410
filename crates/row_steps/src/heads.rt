//! Which bytes spell a part.

ghost use Rattle.std.specs.Prelude.{◌≡◌, ◌↔◌, IsTrue};
ghost use Rattle.theory_syntax.specs.Process.{Process};
ghost use Rattle.theory_spelling.specs.Spelling.{spelling};
ghost use Rattle.theory_shapes.specs.Parts.{IsPart};
ghost use Rattle.row_steps.specs.Heads.{begin_a_part, is_standing};

/// Whether the spelling of a term with an operator at its head that stays, whatever its parts do, begins with this byte: of
/// interleaving, generalised and alphabetised parallel, hiding and renaming.
fn stands(head: u8) -> bool
    ensures { result ≡ is_standing head }
{
    head == 0x0b || head == 0x0d || head == 0x0e || head == 0x0f || head == 0x10
}

/// Whether bytes begin as the spelling of a part does.
fn begins_a_part(bytes: &[u8]) -> bool
    ensures { result ≡ begin_a_part bytes.now }
{
    match bytes.first() {
        Some(head) => !stands(*head),
        None => true,
    }
}

/// Whether bytes that spell a term spell a part: no operator that stays is at its head.
pub fn is_part(bytes: &[u8]) -> bool
    ensures { (p : Process) → bytes.now ≡ spelling p → IsTrue result ↔ IsPart p }
{
    begins_a_part(bytes)
}
