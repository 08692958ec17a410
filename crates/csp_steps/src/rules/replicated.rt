//! Replicated operators. `op x : S @ P` is the chain of its instances, grouped to the left: one of each value of the
//! set, in order, with the value put in for the name. The steps of the chain are found from those of its instances, and
//! of the chain itself no more is built than fits the limits.

ghost use Rattle.std.specs.Prelude.{◌≡◌, IfOk, IsTrue};
ghost use Rattle.theory_syntax.specs.Process.{ExternalChoice, InternalChoice, Interleaving, Skip, Stop};
ghost use Rattle.theory_syntax.specs.Operators.{replicated_process};
ghost use Rattle.theory_semantics.specs.Meaning.Transitions.{chain};
ghost use Rattle.csp_expression.specs.Expression.{expression_of};
ghost use Rattle.csp_term.specs.Script.{script_of_parts};
ghost use Rattle.csp_term.specs.Term.{process_of};
ghost use Rattle.csp_steps.specs.Answering.{AnswersIn, answers_of, target_of, within_limits};
ghost use Rattle.csp_steps.specs.Composing.{HaveSameSteps, IsSideOf, answers_of_sides, process_of_sides, side_answers};
ghost use Rattle.csp_steps.specs.UnderBindings.{AnswersUnder};
ghost use Rattle.csp_steps.specs.Replicating.{AnswersChoices, AreAlike, GoesOn, chosen_answers, instance_chain, instance_of, instances_of, looking_answers, looking_process};

use crate::rule_step::{RuleStep, Target};
use crate::rules::settled::settled;
use crate::rules::{repeated, side, skip};
use crate::side::Side;
use crate::{choice, parallel};
use csp_expression::{Binding, Expr, NoValue};
use csp_term::{AllocHandle, Cause, Memory, Name, ReplicatedOperator, ScriptParts, Term, bind};
use csp_value::Value;

// Where a value is made on the way, what is lent for longer is lent again (`&*`), for as long as that value lives.

#[cycle(steps)]
pub(crate) fn steps<'v, A: AllocHandle>(
    alloc: A,
    script: &'v ScriptParts<A>,
    bindings: &[Binding<'v, A>],
    operator: ReplicatedOperator,
    name: Name,
    set: &'v Expr<A>,
    body: &'v Term<A>,
) -> Result<Vec<RuleStep<A>, A>, NoValue>
    ensures { AnswersUnder script.now bindings.now
        (replicated_process operator name.0 (expression_of set.now) (process_of body.now)) result }
{
    let seen = (&*set).look(alloc, &script.types, bindings)?;
    let Value::Set(members) = seen.value() else {
        return Err(NoValue::Cause(Cause::Kind));
    };
    let instances = Instances {
        alloc,
        script: &*script,
        bindings,
        name,
        body: &*body,
    };
    let values = members.members();
    match operator {
        ReplicatedOperator::ExternalChoice => instances.external(values),
        ReplicatedOperator::InternalChoice => instances.internal(values),
        ReplicatedOperator::Interleaving => instances.interleaving(values),
    }
}

/// A replicated operator that looks at each of its instances.
#[derive(Clone, Copy)]
enum Looking {
    ExternalChoice,
    Interleaving,
}

impl Looking {
    /// The operator of the two.
    fn compose<A: AllocHandle>(
        self,
        alloc: A,
        left: Side<A>,
        right: Side<A>,
    ) -> Result<Side<A>, Memory>
        ensures process { IfOk result (λ side. target_of side.process
            ≡ process_of_sides (looking_process self) left right) }
        ensures steps { IfOk result (λ side. HaveSameSteps (side_answers side)
            (answers_of_sides (looking_answers self) left right)) }
    {
        match self {
            Looking::ExternalChoice => choice::between(alloc, left, right),
            Looking::Interleaving => parallel::interleave(alloc, left, right),
        }
    }
}

/// The name and the process of a replicated operator, under the bindings around it.
#[derive(Drop)]
struct Instances<'v, 'b, A: AllocHandle> {
    alloc: A,
    script: &'v ScriptParts<A>,
    bindings: &'b [Binding<'v, A>],
    name: Name,
    body: &'v Term<A>,
}

impl<'v, 'b, A: AllocHandle> Instances<'v, 'b, A> {
    /// The instance of the value, with its steps.
    #[cycle(steps)]
    fn side(&self, value: &'v Value<A>) -> Result<Side<A>, NoValue>
        ensures { IsSideOf (script_of_parts self.now.script.now) (instance_of self.now value.now)
            result }
    {
        let bindings = bind(self.alloc, self.name, value, self.bindings)?;
        side::under(self.alloc, self.script, &bindings, self.body)
    }

    /// The instance of the value, if it is within the limits.
    fn process(&self, value: &'v Value<A>) -> Result<Target<A>, Memory>
        ensures { IfOk result (λ t. target_of t ≡ within_limits (instance_of self.now value.now)) }
    {
        let bindings = bind(self.alloc, self.name, value, self.bindings)?;
        Target::put_in(self.alloc, self.body, &bindings)
    }

    /// The steps of the chain that begins with the given process, with the instances of the values behind it.
    #[cycle(steps)]
    fn chain(
        &self,
        operator: Looking,
        first: Side<A>,
        others: &'v [Value<A>],
    ) -> Result<Vec<RuleStep<A>, A>, NoValue>
        ensures { GoesOn (script_of_parts self.now.script.now) (looking_process operator) first
            (instances_of self.now others.now) result }
    {
        let mut chain = first;
        for value in others {
            let instance = self.side(value)?;
            chain = operator.compose(self.alloc, chain, instance)?;
        }
        Ok(chain.steps)
    }

    /// Whether the instances of the others are known to be the same term as that of the first.
    fn are_alike(&self, first: &'v Value<A>, others: &'v [Value<A>]) -> Result<bool, Memory>
        ensures { IfOk result (λ alike. IsTrue alike → AreAlike self.now first.now others.now) }
    {
        let expected = self.process(first)?;
        for value in others {
            let instance = self.process(value)?;
            if !repeated::is_same_term(&expected, &instance) {
                return Ok(false);
            }
        }
        Ok(true)
    }

    /// The chain of internal choices, of at least one, if it is within the limits.
    fn choices(&self, first: &'v Value<A>, others: &'v [Value<A>]) -> Result<Target<A>, Memory>
        ensures { IfOk result (λ t. target_of t ≡ within_limits
            (instance_chain self.now InternalChoice first.now others.now)) }
    {
        let mut chain = self.process(first)?;
        for value in others {
            let instance = self.process(value)?;
            chain = choice::either(self.alloc, chain, instance)?;
        }
        Ok(chain)
    }

    /// A choice between the chain of the first ones and the last one, both settled.
    fn choose(
        &self,
        first: &'v Value<A>,
        others: &'v [Value<A>],
        last: &'v Value<A>,
    ) -> Result<Vec<RuleStep<A>, A>, Memory>
        ensures { IfOk result (λ steps. answers_of steps
            ≡ chosen_answers self.now first.now others.now last.now) }
    {
        let chain = self.choices(first, others)?;
        let before = settled(self.alloc, self.script, chain)?;
        let instance = self.process(last)?;
        let behind = settled(self.alloc, self.script, instance)?;
        choice::taus(self.alloc, before, behind)
    }

    /// The steps of `[]` over the values. Of none it is `STOP`. Those of one instance without a tau are those of the
    /// choice between any number of the same, so that the others are not fired.
    #[cycle(steps)]
    fn external(&self, values: &'v [Value<A>]) -> Result<Vec<RuleStep<A>, A>, NoValue>
        ensures { AnswersIn self.now.script.now
            (chain ExternalChoice Stop (instances_of self.now values.now)) result }
    {
        let Some((first, others)) = values.split_first() else {
            return Ok(Vec::new(self.alloc));
        };
        let side = self.side(first)?;
        if !repeated::has_tau(&side.steps) && self.are_alike(first, others)? {
            return Ok(side.steps);
        }
        self.chain(Looking::ExternalChoice, side, others)
    }

    /// The steps of `|||` over the values. Of none it is `SKIP`.
    #[cycle(steps)]
    fn interleaving(&self, values: &'v [Value<A>]) -> Result<Vec<RuleStep<A>, A>, NoValue>
        ensures { AnswersIn self.now.script.now
            (chain Interleaving Skip (instances_of self.now values.now)) result }
    {
        match values.split_first() {
            None => skip::steps(self.alloc, self.script),
            Some((first, others)) => {
                let side = self.side(first)?;
                self.chain(Looking::Interleaving, side, others)
            }
        }
    }

    /// The steps of `|~|` over the values. It looks at an instance only where there is no other.
    #[cycle(steps)]
    fn internal(&self, values: &'v [Value<A>]) -> Result<Vec<RuleStep<A>, A>, NoValue>
        ensures { AnswersChoices (script_of_parts self.now.script.now)
            (instances_of self.now values.now) result }
    {
        let Some((last, before)) = values.split_last() else {
            return Err(NoValue::Cause(Cause::Choice));
        };
        match before.split_first() {
            None => Ok(self.side(last)?.steps),
            Some((first, others)) => Ok(self.choose(first, others, last)?),
        }
    }
}
