// Typing rules as patterns (specs/Patterns.antt): the rule of a tag, and where a node without operands has its type from.
#![tactic(auto)]

ghost use Rattle.std.specs.Prelude.{◌≡◌, ◌≤◌, []};
ghost use Rattle.frame.specs.Tags.{class_of};
ghost use Rattle.type_rules.specs.Patterns.{rule, alike_pair, rule_at};
ghost use Rattle.type_rules.specs.CodeRules.{number, numbers, variable_at, rule_for, own_at};

use crate::Symbol::{Alpha, Beta, Bool, Delta, Gamma, Integers, Power, Product};

// A symbol of a pattern: the first byte of a type, or a variable.
#[derive(Clone, Copy, Debug, PartialEq, Eq)]
pub enum Symbol {
    Bool = 0,
    Integers = 1,
    Power = 3,
    Product = 4,
    Alpha = 5,
    Beta = 6,
    Gamma = 7,
    Delta = 8,
}

impl Symbol {
    // Which variable it is: they are bound in this order.
    pub fn variable(self) -> Option<usize>
        ensures { result ≡ variable_at self }
    {
        match self {
            Alpha => Some(0),
            Beta => Some(1),
            Gamma => Some(2),
            Delta => Some(3),
            _ => None,
        }
    }
}

impl From<Symbol> for u8 {
    ghost from_gives = { λ symbol b. b ≡ number symbol };

    // The byte that a type begins with where the symbol is no variable; the numbers of variables begin no type.
    fn from(symbol: Symbol) -> u8 {
        // Kept: `as` is the language's own way from a case to its number.
        symbol as u8
    }
}

// A rule: each two operands in a row match `pair`, the first operand matches `first` and the last one `last`, with the same
// variables; the node's type is `result`.
#[derive(Clone, Copy, Debug, PartialEq, Eq)]
pub struct Rule {
    pub pair: &'static [Symbol],
    pub first: &'static [Symbol],
    pub last: &'static [Symbol],
    pub result: &'static [Symbol],
}

// ℙ(α), ℙ(α × β), and the types of prj1, prj2 and id.
const SET: &[Symbol] = &[Power, Alpha];

const RELATION: &[Symbol] = &[Power, Product, Alpha, Beta];

const FIRST_PROJECTION: &[Symbol] = &[Power, Product, Product, Alpha, Beta, Alpha];

const SECOND_PROJECTION: &[Symbol] = &[Power, Product, Product, Alpha, Beta, Beta];

const IDENTITY: &[Symbol] = &[Power, Product, Alpha, Alpha];

// Where a node without operands has its type from: it carries it, or its binder does.
#[derive(Clone, Copy, Debug, PartialEq, Eq)]
pub enum Own {
    Carried,
    Bound,
}

// The rule for no operand.
fn constant(outcome: &'static [Symbol]) -> Rule
    ensures { rule_for result ≡ rule [] [] [] (numbers outcome.now) }
{
    unary(&[], outcome)
}

// The rule for one operand.
fn unary(first: &'static [Symbol], outcome: &'static [Symbol]) -> Rule
    ensures { rule_for result ≡ rule [] (numbers first.now) [] (numbers outcome.now) }
{
    binary(first, &[], outcome)
}

// The rule for two operands.
fn binary(first: &'static [Symbol], last: &'static [Symbol], outcome: &'static [Symbol]) -> Rule
    ensures { rule_for result ≡ rule [] (numbers first.now) (numbers last.now) (numbers outcome.now) }
{
    Rule {
        pair: &[],
        first,
        last,
        result: outcome,
    }
}

// The rule for one or more operands of one type.
fn uniform(first: &'static [Symbol], outcome: &'static [Symbol]) -> Rule
    ensures { rule_for result ≡ rule alike_pair (numbers first.now) [] (numbers outcome.now) }
{
    Rule {
        pair: &[Alpha, Alpha],
        first,
        last: &[],
        result: outcome,
    }
}

// The rules of ↦, of ↔ and the arrows, and of the operators from ∖ to r[S].
fn binary_rule(tag: usize) -> Rule
    requires least { 201 ≤ tag }
    requires most { tag ≤ 227 }
    ensures { rule_for result ≡ rule_at (class_of tag) }
{
    match tag {
        201 => binary(&[Alpha], &[Beta], &[Product, Alpha, Beta]),
        202..=212 => binary(SET, &[Power, Beta], &[Power, Power, Product, Alpha, Beta]),
        213 => binary(SET, SET, SET),
        214 => binary(SET, &[Power, Beta], RELATION),
        215 => binary(
            RELATION,
            &[Power, Product, Alpha, Gamma],
            &[Power, Product, Alpha, Product, Beta, Gamma],
        ),
        216 => binary(
            RELATION,
            &[Power, Product, Gamma, Delta],
            &[Power, Product, Product, Alpha, Gamma, Product, Beta, Delta],
        ),
        217..=218 => binary(SET, RELATION, RELATION),
        219..=220 => binary(RELATION, &[Power, Beta], RELATION),
        221 => binary(&[Integers], &[Integers], &[Power, Integers]),
        222..=225 => binary(&[Integers], &[Integers], &[Integers]),
        226 => binary(RELATION, &[Alpha], &[Beta]),
        _ => binary(RELATION, SET, &[Power, Beta]),
    }
}

// The rules of ∪ ∩ ∘ ; <+ + ∗.
fn associative_rule(tag: usize) -> Rule
    requires least { 301 ≤ tag }
    requires most { tag ≤ 307 }
    ensures { rule_for result ≡ rule_at (class_of tag) }
{
    match tag {
        301..=302 => uniform(SET, SET),
        303 => Rule {
            pair: &[Power, Product, Alpha, Beta, Power, Product, Gamma, Alpha],
            first: RELATION,
            last: &[Power, Product, Gamma, Delta],
            result: &[Power, Product, Gamma, Beta],
        },
        304 => Rule {
            pair: &[Power, Product, Alpha, Beta, Power, Product, Beta, Gamma],
            first: RELATION,
            last: &[Power, Product, Gamma, Delta],
            result: &[Power, Product, Alpha, Delta],
        },
        305 => uniform(RELATION, RELATION),
        _ => uniform(&[Integers], &[Integers]),
    }
}

// The rules of ℤ ℕ ℕ1, BOOL, TRUE FALSE, ∅, pred succ, prj1, prj2 and id. Those that carry their type have it for an operand.
fn atomic_rule(tag: usize) -> Rule
    requires least { 401 ≤ tag }
    requires most { tag ≤ 412 }
    ensures { rule_for result ≡ rule_at (class_of tag) }
{
    match tag {
        401..=403 => constant(&[Power, Integers]),
        404 => constant(&[Power, Bool]),
        405..=406 => constant(&[Bool]),
        407 => unary(SET, SET),
        408..=409 => constant(&[Power, Product, Integers, Integers]),
        410 => unary(FIRST_PROJECTION, FIRST_PROJECTION),
        411 => unary(SECOND_PROJECTION, SECOND_PROJECTION),
        _ => unary(IDENTITY, IDENTITY),
    }
}

// The rules of card, ℙ ℙ1, union inter, dom, ran, min max, ∼ and −.
fn unary_rule(tag: usize) -> Rule
    requires least { 751 ≤ tag }
    requires most { tag ≤ 764 }
    ensures { rule_for result ≡ rule_at (class_of tag) }
{
    match tag {
        751 => unary(SET, &[Integers]),
        752..=753 => unary(SET, &[Power, Power, Alpha]),
        754..=755 => unary(&[Power, Power, Alpha], SET),
        756 => unary(RELATION, SET),
        757 => unary(RELATION, &[Power, Beta]),
        761..=762 => unary(&[Power, Integers], &[Integers]),
        763 => unary(RELATION, &[Power, Product, Beta, Alpha]),
        764 => unary(&[Integers], &[Integers]),
        _ => constant(&[Bool]),
    }
}

// The rule of a tag. BOOL stands for the type of a predicate, and for that of a tag that is not listed.
pub fn rule_of(tag: usize) -> Rule
    ensures { rule_for result ≡ rule_at (class_of tag) }
{
    match tag {
        1 => unary(&[Alpha], &[Alpha]),
        3 => unary(&[Alpha], &[Alpha]),
        4 => constant(&[Integers]),
        5 => uniform(&[Alpha], SET),
        101..=102 => binary(&[Alpha], &[Alpha], &[Bool]),
        103..=106 => binary(&[Integers], &[Integers], &[Bool]),
        107..=108 => binary(&[Alpha], SET, &[Bool]),
        109..=112 => binary(SET, SET, &[Bool]),
        201..=227 => binary_rule(tag),
        251..=252 => binary(&[Bool], &[Bool], &[Bool]),
        301..=307 => associative_rule(tag),
        351..=352 => uniform(&[Bool], &[Bool]),
        401..=412 => atomic_rule(tag),
        601 => unary(&[Bool], &[Bool]),
        610..=611 => constant(&[Bool]),
        620 => unary(SET, &[Bool]),
        701 => unary(&[Bool], &[Bool]),
        751..=764 => unary_rule(tag),
        801..=802 => binary(&[Bool], SET, SET),
        803 => binary(&[Bool], &[Alpha], SET),
        851..=852 => unary(&[Bool], &[Bool]),
        901 => uniform(SET, &[Bool]),
        _ => constant(&[Bool]),
    }
}

// Where a node of a tag has its type from, where it has it from itself.
pub fn own_of(tag: usize) -> Option<Own>
    ensures { result ≡ own_at (class_of tag) }
{
    match tag {
        1 => Some(Own::Carried),
        3 => Some(Own::Bound),
        407 => Some(Own::Carried),
        410 => Some(Own::Carried),
        411 => Some(Own::Carried),
        412 => Some(Own::Carried),
        _ => None,
    }
}
