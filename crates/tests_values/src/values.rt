//! Orders, sets and copies of values, events and actions. Values are texts:
//!
//! - a number, `true` or `false`, or the number of a constructor behind `A`, and then its fields, which are numbers;
//! - numbers in angle brackets, a sequence, or in braces, a set;
//! - an action is `tau`, `tick` or an event: the number of its channel and its fields, with dots between.

ghost use Rattle.std.specs.Prelude.{IfOk};
ghost use Rattle.csp_value.specs.Value.{IsRisingSet};

use csp_value::laws::{
    compare_actions, compare_events, compare_sets, compare_values, equal_actions, equal_events,
    equal_sets, equal_values, hash_of_actions, hash_of_events, hash_of_values,
};
use csp_value::{Action, ChannelId, ConId, Event, FieldSet, Memory, SetOf, TryCopy, Value};
use linked_list_allocator::LocalHeap;
use smallvec::SmallVec;
use std::alloc::{Allocator, Global};
use std::cmp::Ordering;
use std::hash::{DefaultHasher, Hash, Hasher};
use std::process::Abort;
use std::test::Fail;

/// Values of each form, in rising order.
const VALUES: &[&str] = &[
    "-2147483648",
    "-1",
    "0",
    "7",
    "2147483647",
    "false",
    "true",
    "A0",
    "A0 -1",
    "A0 -1 7",
    "A0 3",
    "A0 3 0",
    "A1",
    "A1 -1",
    "<>",
    "<0>",
    "<0 5>",
    "<0 6>",
    "<1>",
    "{}",
    "{1}",
    "{1 3}",
    "{2}",
];

/// Actions in rising order.
const ACTIONS: &[&str] = &["tau", "tick", "0", "0.4.5.6", "0.4.6", "1.0"];

/// Numbers, and the members of their set. Of the numbers from -2 to 4 it has no others.
const MEMBERS: &[(&str, &str)] = &[
    ("3 1 3", "1 3"),
    ("", ""),
    ("2 2 2", "2"),
    ("1 0 -1", "-1 0 1"),
];

/// Numbers, the members of their set as a field's, and numbers that it does not have.
const FIELDS: &[(&str, &str, &str)] = &[("3 1 3 7", "1 3 7", "0 2 8")];

/// Two sets, and then both joined, their members in common, and those of the first that the second lacks.
const JOINED: &[[&str; 5]] = &[["1 2 3", "2 3 5", "1 2 3 5", "2 3", "1"]];

/// Sets, the first of each two before the other.
const LESS: &[(&str, &str)] = &[("1", "2 3")];

fn integers(alloc: Global, text: &str) -> Result<Vec<i32>, Fail> {
    let mut integers = Vec::new(alloc);
    for number in text.split_whitespace() {
        integers.push(number.parse::<i32>()?)?;
    }
    Ok(integers)
}

/// The numbers as values.
fn numbers<A: Allocator + Copy>(alloc: A, numbers: &[i32]) -> Result<Vec<Value<A>, A>, Memory> {
    let mut values = Vec::new(alloc);
    for number in numbers {
        values.push(Value::Int(*number))?;
    }
    Ok(values)
}

fn sequence<A: Allocator + Copy>(alloc: A, items: &[i32]) -> Result<Value<A>, Memory> {
    Ok(Value::Seq(numbers(alloc, items)?))
}

/// The set of the numbers.
fn set_of<A: Allocator + Copy>(alloc: A, members: &[i32]) -> Result<SetOf<A>, Memory>
    ensures { IfOk result IsRisingSet }
{
    Ok(SetOf::from_values(numbers(alloc, members)?))
}

/// What stands between the two.
fn between<'t>(text: &'t str, opening: &str, closing: &str) -> Option<&'t str> {
    text.strip_prefix(opening)?.strip_suffix(closing)
}

/// The constructor with its fields, each behind a blank.
fn constructor(alloc: Global, text: &str) -> Result<Value<Global>, Fail> {
    let (number, fields) = text.split_once(' ').unwrap_or((text, ""));
    let number = number.parse::<u32>()?;
    let fields = integers(alloc, fields)?;
    Ok(Value::Con(ConId(number), numbers(alloc, &fields)?))
}

fn scalar(text: &str) -> Result<Value<Global>, Fail> {
    if text == "true" || text == "false" {
        return Ok(Value::Bool(text == "true"));
    }
    Ok(Value::Int(text.parse::<i32>()?))
}

fn value(alloc: Global, text: &str) -> Result<Value<Global>, Fail> {
    if let Some(items) = between(text, "<", ">") {
        let items = integers(alloc, items)?;
        return Ok(sequence(alloc, &items)?);
    }
    if let Some(members) = between(text, "{", "}") {
        let members = integers(alloc, members)?;
        return Ok(Value::Set(set_of(alloc, &members)?));
    }
    if let Some(text) = text.strip_prefix("A") {
        return constructor(alloc, text);
    }
    scalar(text)
}

fn values(alloc: Global, texts: &[&str]) -> Result<Vec<Value<Global>>, Fail> {
    let mut values = Vec::new(alloc);
    for text in texts {
        values.push(value(alloc, *text)?)?;
    }
    Ok(values)
}

/// Whether the values are in this order, and equal only where it says so.
fn are_ordered(left: &Value<Global>, right: &Value<Global>, order: Ordering) -> bool {
    compare_values(left, right) == order && equal_values(left, right) == (order == Ordering::Equal)
}

/// Whether the two are hashed alike.
fn are_hashed_alike<T: Hash>(one: &T, other: &T) -> bool {
    let (mut of_one, mut of_other) = (DefaultHasher::new(), DefaultHasher::new());
    one.hash(&mut of_one);
    other.hash(&mut of_other);
    of_one.finish() == of_other.finish()
}

fn is_equal<A: Allocator>(copy: &Value<A>, value: &Value<A>) -> bool {
    hash_of_values(copy, value);
    copy == value && copy.cmp(value) == Ordering::Equal && are_hashed_alike(copy, value)
}

/// Whether a copy of the value is equal, with the same hash.
fn is_value_copied(alloc: Global, value: &Value<Global>) -> Result<bool, Memory> {
    let copy = value.try_copy(alloc)?;
    Ok(is_equal(&copy, value))
}

fn values_rise(rt: &impl Abort, alloc: Global) -> Result<(), Fail> {
    let values = values(alloc, VALUES)?;
    for (i, left) in values.iter().enumerate() {
        for (j, right) in values.iter().enumerate() {
            assert!(rt; are_ordered(left, right, i.cmp(&j)), "{i} and {j}");
        }
        assert!(rt; is_value_copied(alloc, left)?, "{i}");
    }
    Ok(())
}

fn fields(alloc: Global, numbers: &str) -> Result<SmallVec<Value<Global>, 2, Global>, Fail> {
    let mut fields = SmallVec::new(alloc);
    for number in numbers.split('.') {
        fields.push(Value::Int(number.parse::<i32>()?))?;
    }
    Ok(fields)
}

fn event(alloc: Global, text: &str) -> Result<Event<Global>, Fail> {
    let Some((channel, numbers)) = text.split_once('.') else {
        let channel = ChannelId(text.parse::<u32>()?);
        let fields = SmallVec::new(alloc);
        return Ok(Event { channel, fields });
    };
    let channel = ChannelId(channel.parse::<u32>()?);
    let fields = fields(alloc, numbers)?;
    Ok(Event { channel, fields })
}

fn action(alloc: Global, text: &str) -> Result<Action<Global>, Fail> {
    if text == "tau" {
        return Ok(Action::Tau);
    }
    if text == "tick" {
        return Ok(Action::Tick);
    }
    Ok(Action::Event(event(alloc, text)?))
}

fn actions(alloc: Global, texts: &[&str]) -> Result<Vec<Action<Global>>, Fail> {
    let mut actions = Vec::new(alloc);
    for text in texts {
        actions.push(action(alloc, *text)?)?;
    }
    Ok(actions)
}

/// Whether the events are in this order, and equal only where it says so.
fn are_ordered_events(left: &Event<Global>, right: &Event<Global>, order: Ordering) -> bool {
    compare_events(left, right) == order && equal_events(left, right) == (order == Ordering::Equal)
}

/// Whether the actions, and the events that they are, are in this order, and equal only where it says so.
fn are_ordered_actions(left: &Action<Global>, right: &Action<Global>, order: Ordering) -> bool {
    let are_ordered_so = match (left, right) {
        (Action::Event(left), Action::Event(right)) => are_ordered_events(left, right, order),
        _ => true,
    };
    are_ordered_so
        && compare_actions(left, right) == order
        && equal_actions(left, right) == (order == Ordering::Equal)
}

fn is_event_copied(alloc: Global, event: &Event<Global>) -> Result<bool, Memory> {
    let copy = event.try_copy(alloc)?;
    hash_of_events(&copy, event);
    Ok(equal_events(&copy, event) && are_hashed_alike(&copy, event))
}

/// Whether copies of the action, and of the event that it is, are equal, with the same hash.
fn is_action_copied(alloc: Global, action: &Action<Global>) -> Result<bool, Memory> {
    let is_event_so = match action {
        Action::Event(event) => is_event_copied(alloc, event)?,
        _ => true,
    };
    let copy = action.try_copy(alloc)?;
    hash_of_actions(&copy, action);
    Ok(is_event_so && equal_actions(&copy, action) && are_hashed_alike(&copy, action))
}

fn actions_rise(rt: &impl Abort, alloc: Global) -> Result<(), Fail> {
    let actions = actions(alloc, ACTIONS)?;
    for (i, left) in actions.iter().enumerate() {
        for (j, right) in actions.iter().enumerate() {
            assert!(rt; are_ordered_actions(left, right, i.cmp(&j)), "{i} and {j}");
        }
        assert!(rt; is_action_copied(alloc, left)?, "{i}");
    }
    Ok(())
}

/// Values rise by form and then by their parts, constructors by their numbers and then by their fields, events by channel
/// and then by fields, and actions from tau over tick to events.
#[test]
fn values_and_actions_rise(rt: HostRuntime) -> Result<(), Fail> {
    values_rise(&rt, rt.alloc())?;
    actions_rise(&rt, rt.alloc())
}

/// Whether the set has the members of the list, and of the numbers from -2 to 4 no others.
fn contains_only(set: &SetOf<Global>, members: &[i32]) -> bool {
    for number in -2..5 {
        if set.contains(&Value::Int(number)) != members.contains(&number) {
            return false;
        }
    }
    true
}

/// Whether the set of the numbers has these members.
fn has_members(alloc: Global, given: &str, members: &str) -> Result<bool, Fail> {
    let (given, members) = (integers(alloc, given)?, integers(alloc, members)?);
    let made = set_of(alloc, &given)?;
    let expected = numbers(alloc, &members)?;
    Ok(made.members() == expected.as_slice() && contains_only(&made, &members))
}

fn have_members(rt: &impl Abort, alloc: Global) -> Result<(), Fail> {
    for (given, members) in MEMBERS {
        assert!(rt; has_members(alloc, *given, *members)?, "{given}");
    }
    Ok(())
}

/// Whether the field's set has each of the values, or has none of them.
fn has_each(set: &FieldSet<Global>, values: &[i32], is_there: bool) -> bool {
    for number in values {
        if set.contains(&Value::Int(*number)) != is_there {
            return false;
        }
    }
    true
}

/// Whether these are the members of the set and of its copy.
fn are_members(alloc: Global, set: &FieldSet<Global>, members: &[i32]) -> Result<bool, Memory> {
    let expected = numbers(alloc, members)?;
    Ok(set.members() == expected.as_slice() && set.try_copy(alloc)? == *set)
}

/// Whether the field's set of the numbers has these members and lacks the others.
fn is_field(alloc: Global, given: &str, members: &str, others: &str) -> Result<bool, Fail> {
    let (given, members) = (integers(alloc, given)?, integers(alloc, members)?);
    let others = integers(alloc, others)?;
    let set = FieldSet::from_values(numbers(alloc, &given)?);
    Ok(
        are_members(alloc, &set, &members)?
            && has_each(&set, &members, true)
            && has_each(&set, &others, false),
    )
}

fn are_fields(rt: &impl Abort, alloc: Global) -> Result<(), Fail> {
    for (given, members, others) in FIELDS {
        assert!(rt; is_field(alloc, *given, *members, *others)?, "{given}");
    }
    Ok(())
}

/// The set of the numbers of the text.
fn set(alloc: Global, text: &str) -> Result<SetOf<Global>, Fail> {
    let members = integers(alloc, text)?;
    Ok(set_of(alloc, &members)?)
}

/// Whether the set has these members.
fn is_set(alloc: Global, found: &SetOf<Global>, members: &str) -> Result<bool, Fail> {
    let expected = set(alloc, members)?;
    Ok(equal_sets(found, &expected) && *found == expected)
}

fn join(alloc: Global, left: &str, right: &str) -> Result<SetOf<Global>, Fail> {
    let left = set(alloc, left)?;
    Ok(left.union(set(alloc, right)?)?)
}

fn cut(alloc: Global, left: &str, right: &str) -> Result<SetOf<Global>, Fail> {
    let left = set(alloc, left)?;
    let right = set(alloc, right)?;
    Ok(left.intersection(&right))
}

fn left_alone(alloc: Global, left: &str, right: &str) -> Result<SetOf<Global>, Fail> {
    let left = set(alloc, left)?;
    let right = set(alloc, right)?;
    Ok(left.difference(&right))
}

fn is_joined_and_cut(alloc: Global, row: &[&str; 5]) -> Result<bool, Fail> {
    let [left, right, joined, both, alone] = *row;
    Ok(
        is_set(alloc, &join(alloc, left, right)?, joined)?
            && is_set(alloc, &cut(alloc, left, right)?, both)?
            && is_set(alloc, &left_alone(alloc, left, right)?, alone)?,
    )
}

fn are_joined_and_cut(rt: &impl Abort, alloc: Global) -> Result<(), Fail> {
    for row in JOINED {
        assert!(rt; is_joined_and_cut(alloc, row)?, "{row:?}");
    }
    Ok(())
}

fn is_less(alloc: Global, left: &str, right: &str) -> Result<bool, Fail> {
    let (left, right) = (set(alloc, left)?, set(alloc, right)?);
    Ok(!equal_sets(&left, &right) && compare_sets(&left, &right) == Ordering::Less)
}

fn are_less(rt: &impl Abort, alloc: Global) -> Result<(), Fail> {
    for (left, right) in LESS {
        assert!(rt; is_less(alloc, *left, *right)?, "{left}");
    }
    Ok(())
}

#[test]
fn sets_have_their_members(rt: HostRuntime) -> Result<(), Fail> {
    have_members(&rt, rt.alloc())?;
    are_fields(&rt, rt.alloc())?;
    are_joined_and_cut(&rt, rt.alloc())?;
    are_less(&rt, rt.alloc())
}

/// A sequence of a set, a sequence and a constructor with fields.
fn nested<A: Allocator + Copy>(alloc: A) -> Result<Value<A>, Memory> {
    let mut items = Vec::new(alloc);
    items.push(Value::Set(set_of(alloc, &[3, 1, 4, 5, 9, 2, 6])?))?;
    items.push(sequence(alloc, &[2, 7, 1, 8, 2, 8])?)?;
    items.push(Value::Con(ConId(1), numbers(alloc, &[1, 6, 1])?))?;
    Ok(Value::Seq(items))
}

/// Whether the copy in the other heap is equal and has the same hash.
fn is_copied_across<'h>(here: &'h LocalHeap, there: &'h LocalHeap) -> Result<bool, Memory> {
    let value = nested(here)?;
    let copy = value.try_copy(there)?;
    Ok(is_equal(&copy, &value))
}

fn are_copied_across(rt: &impl Abort, alloc: Global) -> Result<(), Fail> {
    let here = LocalHeap::new(alloc, 4096)?;
    let there = LocalHeap::new(alloc, 4096)?;
    assert!(rt; is_copied_across(&here, &there)?);
    Ok(())
}

/// Whether the value has the size 20 and the depth 3.
fn has_size_and_depth(value: &Value<Global>) -> bool {
    value.room_left(19) == None
        && value.room_left(20) == Some(0)
        && value.room_left(24) == Some(4)
        && value.is_within_depth(3)
        && !value.is_within_depth(2)
}

/// Whether the copy in the heap is equal.
fn copies<'h>(heap: &'h LocalHeap, value: &Value<&'h LocalHeap>) -> Result<bool, Memory> {
    Ok(value.try_copy(heap)? == *value)
}

/// Whether a heap of so many bytes has room for a copy, which is then equal.
fn is_copied_within(rt: &impl Abort, alloc: Global, bytes: usize) -> Result<bool, Fail> {
    let here = LocalHeap::new(alloc, 4096)?;
    let there = LocalHeap::new(alloc, bytes)?;
    let value = nested(&here)?;
    let Ok(is_equal) = copies(&there, &value) else {
        assert!(rt; there.used() == 0);
        return Ok(false);
    };
    assert!(rt; is_equal);
    Ok(true)
}

fn find_room_or_say_so(rt: &impl Abort, alloc: Global) -> Result<(), Fail> {
    let mut copied = false;
    let mut refused = false;
    // Each heap has 16 bytes more than the one before it, and hands out no fewer.
    for units in 1..128 {
        if is_copied_within(rt, alloc, 16 * units)? {
            copied = true;
        } else {
            refused = true;
        }
    }
    assert!(rt; copied && refused);
    Ok(())
}

#[test]
fn values_have_sizes_and_equal_copies(rt: HostRuntime) -> Result<(), Fail> {
    assert!(rt; has_size_and_depth(&nested(rt.alloc())?));
    are_copied_across(&rt, rt.alloc())?;
    find_room_or_say_so(&rt, rt.alloc())
}
