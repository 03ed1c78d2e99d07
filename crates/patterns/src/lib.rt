// Typing rules at work: the patterns of a rule (type_rules/specs/Patterns.antt) are matched with types that stand in a row, and `results`
// makes the type of the node.
#![tactic(auto)]

ghost use Rattle.std.specs.Prelude.{◌≡◌, ◌<◌, []};
ghost use Rattle.frame.specs.Tags.{class_of};
ghost use Rattle.type_rules.specs.Patterns.{rule_at};
ghost use Rattle.type_rules.specs.CodeRules.{numbers, rule_for};
ghost use Rattle.patterns.specs.PatternPosts.{VariablePost, MatchPre, MatchPost, PairsPre, PairsPost, OperandsPost, JudgePre, JudgePost};

use arrayvec::ArrayVec;
use heads::type_end;
use results::{Span, fill_result};
use type_rules::{Rule, Symbol, rule_of};

// The variables that are bound, in their order, each to the type that stands in its span; a rule has four of them at most.
type Bindings = ArrayVec<Span, 4>;

// Kept: `types` and n as two parameters here: a slice up to n would serve, but `fill_result` asks for the spans in the whole buffer, so a
// law would have to say that they mean the same there.
// A variable at the first of the types that stand from `at` up to n: one that is bound stands for the type that it has, and the next to
// be bound for the type that is there. Where that type ends, if it is the variable's.
fn match_variable(
    variable: usize,
    types: &[u8],
    at: usize,
    n: usize,
    bindings: &mut Bindings,
) -> Option<usize>
    requires { MatchPre types.now at n bindings.old.items × (at < n) × (variable < 4) }
    ensures { VariablePost variable types.now at n bindings.old.items bindings.new.items result }
{
    if let Some(span) = bindings.get(variable).copied() {
        // Kept: `starts_with` for both tests was tried and misses the bar (docs/DESIGN-PASS.md): a fifth more instructions to match the types
        // of a frame of 952 bytes.
        let len = span.end - span.start;
        if n - at < len || types[at..at + len] != types[span.start..span.end] {
            return None;
        }
        return Some(at + len);
    }
    if variable != bindings.len() {
        return None;
    }
    let end = type_end(types, at);
    bindings.push(Span { start: at, end });
    Some(end)
}

// The pattern, at the types that stand from `start` up to n, with the variables that are bound already: None where another type stands
// than it asks for.
fn match_pattern(
    pattern: &[Symbol],
    types: &[u8],
    start: usize,
    n: usize,
    bindings: &mut Bindings,
) -> Option<()>
    requires { MatchPre types.now start n bindings.old.items }
    ensures { MatchPost (numbers pattern.now) types.now start n bindings.old.items bindings.new.items result }
{
    let mut at = start;
    for &symbol in pattern {
        if n <= at {
            return None;
        }
        let Some(variable) = symbol.variable() else {
            if types[at] != u8::from(symbol) {
                return None;
            }
            at += 1;
            continue;
        };
        at = match_variable(variable, types, at, n, bindings)?;
    }
    Some(())
}

// Kept: a `while`, since only the type at hand says where the next one starts, and the last is not gone past: an iterator over the starts
// would be a struct with contracts of its own for this, and a recursion would be as deep as the node has operands.
// Each two of the types that stand in a row from `start` up to n match the pattern: where the last of them starts.
fn match_pairs(pattern: &[Symbol], types: &[u8], start: usize, n: usize) -> Option<usize>
    requires { PairsPre types.now start n }
    ensures { PairsPost (numbers pattern.now) types.now start n result }
{
    let mut at = start;
    while at < n {
        let end = type_end(types, at);
        if n <= end {
            return Some(at);
        }
        let mut bindings = Bindings::new();
        match_pattern(pattern, types, at, n, &mut bindings)?;
        at = end;
    }
    Some(at)
}

// The patterns of a rule at the types of the operands, which stand from `from` up to n: the variables that its result needs are bound,
// where none was before.
fn match_operands(
    rule: &Rule,
    types: &[u8],
    from: usize,
    n: usize,
    bindings: &mut Bindings,
) -> Option<()>
    requires { JudgePre types.now from n × (bindings.old.items ≡ []) }
    ensures { OperandsPost (rule_for rule.now) types.now from n bindings.new.items result }
{
    let last = match_pairs(rule.pair, types, from, n)?;
    match_pattern(rule.first, types, from, n, bindings)?;
    match_pattern(rule.last, types, last, n, bindings)
}

// The rule of a tag at the types of the operands, which stand from `from` up to n. The type of the node is left from `from` on: where it
// ends, or None where the rule is broken.
pub fn judge_types(tag: usize, types: &mut [u8], from: usize, n: usize) -> Option<usize>
    requires { JudgePre types.old from n }
    ensures { JudgePost (rule_at (class_of tag)) types.old from n types.new result }
{
    let rule = rule_of(tag);
    let mut bindings = Bindings::new();
    match_operands(&rule, types, from, n, &mut bindings)?;
    let m = fill_result(rule.result, types, n, &bindings)?;
    types.copy_within(n..m, from);
    Some(from + (m - n))
}
