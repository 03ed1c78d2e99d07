// What a tag asks for: its form. Tags that ask for the same have one form.

ghost use Rattle.std.specs.Prelude.{◌≡◌, ◌≤◌, length};
ghost use Rattle.frame.specs.Tags.{width, in_range, payload_of, types_of, sorts_of};
ghost use Rattle.tags.specs.TagCodes.{meant, sort_for, first_sort, later_sort};

// What a tree says: that something holds, or a value.
#[derive(Clone, Copy, Debug, PartialEq, Eq)]
pub enum Sort {
    Predicate,
    Expression,
}

#[derive(Clone, Copy, Debug, PartialEq, Eq)]
pub enum Form {
    // A tag that is not listed.
    // Kept: a case and no `Option<Form>`, as in the definitions' table of tags, which answers each question of such a tag too.
    Unlisted,
    // ⊤ ⊥
    LiteralPredicate,
    // = ≠ < ≤ > ≥ ∈ ∉ ⊂ ⊄ ⊆ ⊈
    Relational,
    // ⇒ ⇔
    BinaryPredicate,
    // ¬
    Negation,
    Finite,
    // ∧ ∨
    AssociativePredicate,
    Partition,
    // ∀ ∃
    QuantifiedPredicate,
    // ℤ ℕ ℕ1 BOOL TRUE FALSE pred succ
    Atomic,
    // ∅ prj1 prj2 id: they carry their type.
    TypedAtomic,
    // bool(P)
    BoolExpression,
    // card ℙ union dom min ∼ −
    UnaryExpression,
    // ↦ .. r[S]
    BinaryExpression,
    Identifier,
    BoundIdentifier,
    Literal,
    // {a, …, b}
    SetExtension,
    // ∪ ∩ ∘ ; <+ + ∗
    AssociativeExpression,
    // ⋃ ⋂ {x · P ∣ E}
    QuantifiedExpression,
}

impl Form {
    pub fn is_listed(self) -> bool
        ensures { result ≡ (meant self).listed }
    {
        !matches!(self, Form::Unlisted)
    }

    // The sort of the trees that a tag of this form begins.
    pub fn sort(self) -> Sort
        ensures { sort_for result ≡ (meant self).sort }
    {
        match self {
            Form::Unlisted
            | Form::LiteralPredicate
            | Form::Relational
            | Form::BinaryPredicate
            | Form::Negation
            | Form::Finite
            | Form::AssociativePredicate
            | Form::Partition
            | Form::QuantifiedPredicate => Sort::Predicate,
            _ => Sort::Expression,
        }
    }

    // How many bytes the number takes that follows the tag.
    pub fn width(self) -> usize
        ensures { (result ≡ width (meant self).layout) × (result ≤ 8) }
    {
        match self {
            Form::Identifier => 2,
            Form::Literal => 8,
            Form::BoundIdentifier
            | Form::AssociativePredicate
            | Form::Partition
            | Form::QuantifiedPredicate => 1,
            Form::SetExtension | Form::AssociativeExpression | Form::QuantifiedExpression => 1,
            _ => 0,
        }
    }

    // Whether the number x that follows the tag is in its range.
    pub fn in_range(self, x: usize) -> bool
        ensures { result ≡ in_range (meant self).layout x }
    {
        match self {
            Form::AssociativePredicate | Form::AssociativeExpression => 2 <= x && x <= 255,
            Form::Partition | Form::SetExtension => 1 <= x && x <= 255,
            Form::QuantifiedPredicate | Form::QuantifiedExpression => 1 <= x && x <= 32,
            _ => true,
        }
    }

    // The node's own number: x where it is a payload.
    pub fn payload(self, x: usize) -> usize
        ensures { result ≡ payload_of (meant self).layout x }
    {
        match self {
            Form::Identifier | Form::BoundIdentifier | Form::Literal => x,
            _ => 0,
        }
    }

    // How many types follow x.
    pub fn types(self, x: usize) -> usize
        ensures { result ≡ types_of (meant self).layout (meant self).carried x }
    {
        match self {
            Form::Identifier | Form::TypedAtomic => 1,
            Form::QuantifiedPredicate | Form::QuantifiedExpression => x,
            _ => 0,
        }
    }

    // How many children a node with the number x has.
    #[tactic(auto, using(frame::proofs::ReadTrees::repeat_length))]
    pub fn children(self, x: usize) -> usize
        ensures { result ≡ length (sorts_of (meant self).layout x) }
    {
        match self {
            Form::Negation
            | Form::Finite
            | Form::QuantifiedPredicate
            | Form::BoolExpression
            | Form::UnaryExpression => 1,
            Form::Relational
            | Form::BinaryPredicate
            | Form::BinaryExpression
            | Form::QuantifiedExpression => 2,
            Form::AssociativePredicate
            | Form::Partition
            | Form::SetExtension
            | Form::AssociativeExpression => x,
            _ => 0,
        }
    }

    // The sort of the first child; a predicate where there is none.
    pub fn first(self) -> Sort
        ensures { result ≡ first_sort (sorts_of (meant self).layout 1) }
    {
        match self {
            Form::Relational
            | Form::Finite
            | Form::Partition
            | Form::UnaryExpression
            | Form::BinaryExpression => Sort::Expression,
            Form::SetExtension | Form::AssociativeExpression => Sort::Expression,
            _ => Sort::Predicate,
        }
    }

    // The sort of the children after the first; where there is none after it, that of the first.
    pub fn later(self) -> Sort
        ensures { result ≡ later_sort (sorts_of (meant self).layout 1) }
    {
        match self {
            Form::QuantifiedExpression => Sort::Expression,
            _ => self.first(),
        }
    }
}
