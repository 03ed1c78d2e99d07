// The result of a typing rule: its pattern (type_rules/specs/Patterns.antt) filled with the types of the variables, 64 bytes at most.
#![tactic(auto)]

ghost use Rattle.std.specs.Prelude.{◌+◌};
ghost use Rattle.frame.specs.Reading.{type_limit};
ghost use Rattle.type_rules.specs.CodeRules.{numbers};
ghost use Rattle.results.specs.ResultPosts.{FillPre, FillPost};

use frame::limits::TYPE_LIMIT;
use type_rules::Symbol;

// Where a type stands in the buffer of types. Variables are bound in their order, so those that are bound are a row of spans.
#[derive(Clone, Copy, Debug, Default, PartialEq, Eq)]
pub struct Span {
    pub start: usize,
    pub end: usize,
}

// Kept: the buffer and places in it as parameters: the types of the variables stand below `start`, so a slice from there on would lack them.
// The pattern with the types of its variables, written from `start` on and no further than to `limit`: where it ends, if it is no longer
// and its variables are bound.
fn fill_pattern(
    pattern: &[Symbol],
    types: &mut [u8],
    start: usize,
    limit: usize,
    bindings: &[Span],
) -> Option<usize>
    requires { FillPre types.old start limit bindings.now }
    ensures { FillPost (numbers pattern.now) types.old start limit bindings.now types.new result }
{
    let mut m = start;
    for &symbol in pattern {
        let Some(variable) = symbol.variable() else {
            if limit <= m {
                return None;
            }
            types[m] = u8::from(symbol);
            m += 1;
            continue;
        };
        let span = bindings.get(variable).copied()?;
        let len = span.end - span.start;
        if limit - m < len {
            return None;
        }
        types.copy_within(span.start..span.end, m);
        m += len;
    }
    Some(m)
}

// The pattern with the types of its variables, written from n on: the type that a rule makes, so no longer than document 01 lets a
// derived type be.
pub fn fill_result(
    pattern: &[Symbol],
    types: &mut [u8],
    n: usize,
    bindings: &[Span],
) -> Option<usize>
    requires { FillPre types.old n (n + type_limit) bindings.now }
    ensures { FillPost (numbers pattern.now) types.old n (n + type_limit) bindings.now types.new result }
{
    fill_pattern(pattern, types, n, n + TYPE_LIMIT, bindings)
}
