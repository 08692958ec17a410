//! Operators of expressions.

/// An operator of one operand. The order is that of the list.
#[derive(Clone, Copy, PartialEq, Eq, PartialOrd, Ord, Hash)]
pub enum UnaryOperator {
    /// `-e`
    Negate,
    /// `not e`
    Not,
    /// `#e`, the length of a sequence.
    Length,
    /// `head(e)`, the first item of a sequence.
    Head,
    /// `tail(e)`, a sequence without its first item.
    Tail,
    /// `null(e)`, whether a sequence is empty.
    IsNull,
    /// `card(e)`, the number of members of a set.
    Card,
}

/// An operator of two operands. The order is that of the list.
#[derive(Clone, Copy, PartialEq, Eq, PartialOrd, Ord, Hash)]
pub enum BinaryOperator {
    /// `e + f`
    Add,
    /// `e - f`
    Subtract,
    /// `e * f`
    Multiply,
    /// `e % f`, from 0 to `f` - 1.
    Modulus,
    /// `e ^ f`, two sequences one after the other.
    Concatenate,
    /// `e == f`, of two values of any kind.
    Equals,
    /// `e != f`, of two values of any kind.
    Differs,
    /// `e < f`
    LessThan,
    /// `e <= f`
    AtMost,
    /// `e > f`
    GreaterThan,
    /// `e >= f`
    AtLeast,
    /// `e and f`, which looks at `f` only where `e` is true.
    And,
    /// `e or f`, which looks at `f` only where `e` is false.
    Or,
    /// `elem(e, f)`, whether a sequence has a value.
    IsElement,
    /// `member(e, f)`, whether a set has a value.
    IsMember,
    /// `union(e, f)`
    Union,
    /// `inter(e, f)`
    Intersection,
    /// `diff(e, f)`
    Difference,
}
