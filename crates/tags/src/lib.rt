// The table of tags: what follows a tag, and what sort of tree it begins (document 01, "The frame record").
#![tactic(auto)]

mod forms;

ghost use Rattle.std.specs.Prelude.{◌≡◌};
ghost use Rattle.frame.specs.Tags.{class_of};
ghost use Rattle.tags.specs.TagCodes.{form_code};

pub use forms::{Form, Sort};

// The form of a tag.
pub fn form_of(tag: usize) -> Form
    ensures { result ≡ form_code (class_of tag) }
{
    match tag {
        1 => Form::Identifier,
        3 => Form::BoundIdentifier,
        4 => Form::Literal,
        5 => Form::SetExtension,
        101..=112 => Form::Relational,
        201..=227 => Form::BinaryExpression,
        251..=252 => Form::BinaryPredicate,
        301..=307 => Form::AssociativeExpression,
        351..=352 => Form::AssociativePredicate,
        401..=406 => Form::Atomic,
        407 => Form::TypedAtomic,
        408..=409 => Form::Atomic,
        410..=412 => Form::TypedAtomic,
        601 => Form::BoolExpression,
        610..=611 => Form::LiteralPredicate,
        620 => Form::Finite,
        701 => Form::Negation,
        751..=757 => Form::UnaryExpression,
        761..=764 => Form::UnaryExpression,
        801..=803 => Form::QuantifiedExpression,
        851..=852 => Form::QuantifiedPredicate,
        901 => Form::Partition,
        _ => Form::Unlisted,
    }
}
