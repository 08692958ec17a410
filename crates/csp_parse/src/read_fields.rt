//! Reading the fields of a prefix.

ghost use Rattle.std.specs.Prelude.{◌≡◌, IfOk, IfErr, map};
ghost use Rattle.csp_parse.specs.declared.stops.Stopped.TheVariants.{Memory};
ghost use Rattle.csp_parse.specs.Processes.{field_of, fields_given};

use crate::expressions::Expression;
use crate::levels::Level;
use crate::parsers::Parser;
use crate::processes::Field;
use crate::stops::Stopped;
use csp_lex::Sign;
use std::alloc::Allocator;

impl<'t, 'a, A: Allocator + Copy> Parser<'t, 'a, A> {
    ghost use Rattle.theory_reader.specs.Forms as form;
    ghost use Rattle.csp_parse.specs.Reading.{Reads, Shortens, Keeps};

    /// The fields of a prefix, behind those that are given with a dot.
    pub(crate) fn fields_behind(
        &mut self,
        values: Vec<Expression<'a, A>, A>,
    ) -> Result<Vec<Field<'a, A>, A>, Stopped>
        ensures reads { Reads (form.FieldsBehind (fields_given values.entry.items))
            (λ fs. map field_of fs.items) self.old result self.new }
        ensures shorter { Keeps self.old result self.new }
    {
        let mut fields = given(self.alloc, values)?;
        while self.is_at(Sign::Output) || self.is_at(Sign::Input) {
            let field = self.field()?;
            fields.push(field)?;
        }
        Ok(fields)
    }

    /// An output or an input.
    fn field(&mut self) -> Result<Field<'a, A>, Stopped>
        ensures reads { Reads form.OfField field_of self.old result self.new }
        ensures shorter { Shortens self.old result self.new }
    {
        if self.is_at(Sign::Output) {
            let value = self.expression_behind(Sign::Output, Level::Atom)?;
            return Ok(Field::Given(value));
        }
        let name = self.name_behind(Sign::Input)?;
        if !self.is_at(Sign::Colon) {
            return Ok(Field::Input(name));
        }
        let set = self.expression_behind(Sign::Colon, Level::Atom)?;
        Ok(Field::InputFrom(name, set))
    }
}

/// Fields of these values.
fn given<'a, A: Allocator + Copy>(
    alloc: A,
    values: Vec<Expression<'a, A>, A>,
) -> Result<Vec<Field<'a, A>, A>, Stopped>
    ensures makes { IfOk result (λ r. map field_of r.items ≡ fields_given values.entry.items) }
    ensures stops { IfErr result (λ stopped. stopped ≡ Memory) }
{
    let mut fields = Vec::new(alloc);
    for value in values {
        fields.push(Field::Given(value))?;
    }
    Ok(fields)
}
