// A key for each child of an ∧ or an ∨: trees with different keys are neither the same nor opposite, so most children are told apart
// by two numbers.
ghost use Rattle.std.specs.Prelude.{◌≡◌, ◌≤◌, length, sum};
ghost use Rattle.nav.specs.AtPlaces.{TreeAt};
ghost use Rattle.junction.specs.Keys.{KeyAt};

use nav::Places;

// The bytes of ¬, 02 and BD, come to this: so a tree and its opposite leave the same remainder.
const NOT_SUM: usize = 191;

fn sum_of(bytes: &[u8]) -> usize
    requires { length bytes.now ≤ 4096 }
    ensures { result ≡ sum bytes.now }
{
    bytes.iter().map(|&b| usize::from(b)).sum()
}

// The key of the tree at place k: the sum of its bytes, by its remainder.
#[tactic(auto, using(crate::proofs::KeyTurns::key_inside))]
pub fn key_at(places: &Places<'_>, k: usize) -> u8
    requires { TreeAt places.now k }
    ensures { KeyAt places.now k result }
{
    // the tree at place 0 is the whole: the place that follows it says how many there are
    let whole = Places {
        count: places.next_at(0),
        ..*places
    };
    let from = places.start_at(k);
    let to = whole.end_at(k);
    // Kept: `as`: no `From` makes a shorter number, and the proof knows the remainder < 191 unasked; `try_from` is no plainer.
    (sum_of(&places.bytes[from..to]) % NOT_SUM) as u8
}
