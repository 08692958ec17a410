//! Reading declarations.

ghost use Rattle.std.specs.Prelude.{map};
ghost use Rattle.csp_parse.specs.Declarations.{domain_of, clause_of, declaration_of};
ghost use Rattle.csp_parse.specs.Levels.{level_of};
ghost use Rattle.csp_parse.specs.Names.{name_of};
ghost use Rattle.csp_parse.specs.Stopping.{GivesScript};

use crate::declarations::{Clause, Declaration, Domain, Raw};
use crate::levels::Level;
use crate::names::Name;
use crate::parsers::Parser;
use crate::stops::Stopped;
use csp_lex::{Keyword, Sign};
use std::alloc::Allocator;

impl<'t, 'a, A: Allocator + Copy> Parser<'t, 'a, A> {
    ghost use Rattle.theory_reader.specs.Forms as form;
    ghost use Rattle.csp_parse.specs.Reading.{Reads, Shortens};

    /// All declarations that are left.
    pub(crate) fn script(&mut self) -> Result<Raw<'a, A>, Stopped>
        ensures reads { GivesScript self.old result self.new }
    {
        let mut declarations = Vec::new(self.alloc);
        'script: loop {
            let Some(_) = self.kind() else {
                return Ok(Raw { declarations });
            };
            self.begin_declaration()?;
            let declaration = self.declaration()?;
            declarations.push(declaration)?;
        }
    }

    fn declaration(&mut self) -> Result<Declaration<'a, A>, Stopped>
        ensures reads { Reads form.OfDeclaration declaration_of self.old result self.new }
        ensures shorter { Shortens self.old result self.new }
    {
        if self.is_at_word(Keyword::Datatype) {
            return self.datatype();
        }
        if self.is_at_word(Keyword::Nametype) {
            return self.nametype();
        }
        if self.is_at_word(Keyword::Channel) {
            return self.channels();
        }
        if self.is_at_word(Keyword::Assert) {
            return self.assertion();
        }
        if self.is_at_name() {
            return self.equation();
        }
        Err(Stopped::Here)
    }

    /// A datatype, whose keyword is next.
    fn datatype(&mut self) -> Result<Declaration<'a, A>, Stopped>
        ensures reads { Reads form.OfDatatype declaration_of self.old result self.new }
        ensures shorter { Shortens self.old result self.new }
    {
        self.word(Keyword::Datatype)?;
        let name = self.name()?;
        self.sign(Sign::Equals)?;
        let clauses = self.clauses()?;
        Ok(Declaration::Datatype { name, clauses })
    }

    /// The clauses of a datatype, with a bar between.
    fn clauses(&mut self) -> Result<Vec<Clause<'a, A>, A>, Stopped>
        ensures reads { Reads form.OfClauses (λ r. map clause_of r.items) self.old result self.new }
        ensures shorter { Shortens self.old result self.new }
    {
        let mut clauses = Vec::new(self.alloc);
        let first = self.clause()?;
        clauses.push(first)?;
        while self.is_at(Sign::Bar) {
            self.sign(Sign::Bar)?;
            let clause = self.clause()?;
            clauses.push(clause)?;
        }
        Ok(clauses)
    }

    /// A constructor, with the sets of its fields.
    fn clause(&mut self) -> Result<Clause<'a, A>, Stopped>
        ensures reads { Reads form.OfClause clause_of self.old result self.new }
        ensures shorter { Shortens self.old result self.new }
    {
        let name = self.name()?;
        if !self.is_at(Sign::Dot) {
            return Ok(Clause {
                name,
                fields: Vec::new(self.alloc),
            });
        }
        self.sign(Sign::Dot)?;
        let fields = self.domains()?;
        Ok(Clause { name, fields })
    }

    /// A nametype, whose keyword is next.
    fn nametype(&mut self) -> Result<Declaration<'a, A>, Stopped>
        ensures reads { Reads form.OfNametype declaration_of self.old result self.new }
        ensures shorter { Shortens self.old result self.new }
    {
        self.word(Keyword::Nametype)?;
        let name = self.name()?;
        self.sign(Sign::Equals)?;
        let domain = self.domain(Level::Disjunction)?;
        Ok(Declaration::Nametype { name, domain })
    }

    /// Channels, whose keyword is next.
    fn channels(&mut self) -> Result<Declaration<'a, A>, Stopped>
        ensures reads { Reads form.OfChannels declaration_of self.old result self.new }
        ensures shorter { Shortens self.old result self.new }
    {
        self.word(Keyword::Channel)?;
        let names = self.names()?;
        if !self.is_at(Sign::Colon) {
            let domains = Vec::new(self.alloc);
            return Ok(Declaration::Channels { names, domains });
        }
        self.sign(Sign::Colon)?;
        let domains = self.domains()?;
        Ok(Declaration::Channels { names, domains })
    }

    /// An equation, whose name is next.
    fn equation(&mut self) -> Result<Declaration<'a, A>, Stopped>
        ensures reads { Reads form.OfEquation declaration_of self.old result self.new }
        ensures shorter { Shortens self.old result self.new }
    {
        let name = self.name()?;
        if self.is_at(Sign::OpenRound) {
            return self.equation_with(name);
        }
        let body = self.process_behind(Sign::Equals)?;
        Ok(Declaration::Equation {
            name,
            parameters: Vec::new(self.alloc),
            body,
        })
    }

    /// The rest of an equation, behind its name, whose parameters are next.
    fn equation_with(&mut self, name: Name<'a>) -> Result<Declaration<'a, A>, Stopped>
        ensures reads { Reads (form.EquationWith (name_of name.entry)) declaration_of self.old
            result self.new }
        ensures shorter { Shortens self.old result self.new }
    {
        self.sign(Sign::OpenRound)?;
        let parameters = self.names()?;
        self.sign(Sign::CloseRound)?;
        let body = self.process_behind(Sign::Equals)?;
        Ok(Declaration::Equation {
            name,
            parameters,
            body,
        })
    }

    /// Names with a comma between.
    fn names(&mut self) -> Result<Vec<Name<'a>, A>, Stopped>
        ensures reads { Reads form.OfNames (λ r. map name_of r.items) self.old result self.new }
        ensures shorter { Shortens self.old result self.new }
    {
        let mut names = Vec::new(self.alloc);
        let first = self.name()?;
        names.push(first)?;
        while self.is_at(Sign::Comma) {
            self.sign(Sign::Comma)?;
            let name = self.name()?;
            names.push(name)?;
        }
        Ok(names)
    }

    /// The set that an expression of a level is.
    fn domain(&mut self, level: Level) -> Result<Domain<'a, A>, Stopped>
        ensures reads { Reads (form.OfDomain (level_of level)) domain_of self.old result self.new }
        ensures shorter { Shortens self.old result self.new }
    {
        let Some(first) = self.next() else {
            return Err(Stopped::Here);
        };
        let set = self.expression(level)?;
        Ok(Domain {
            place: first.place,
            set,
        })
    }

    /// The sets of the fields of a constructor or channel, with a dot between.
    fn domains(&mut self) -> Result<Vec<Domain<'a, A>, A>, Stopped>
        ensures reads { Reads form.OfDomains (λ r. map domain_of r.items) self.old result self.new }
        ensures shorter { Shortens self.old result self.new }
    {
        let mut domains = Vec::new(self.alloc);
        let first = self.domain(Level::Atom)?;
        domains.push(first)?;
        while self.is_at(Sign::Dot) {
            self.sign(Sign::Dot)?;
            let domain = self.domain(Level::Atom)?;
            domains.push(domain)?;
        }
        Ok(domains)
    }
}
