// Partitions of one or two sets (14, 15).
ghost use Rattle.decision.specs.AtPlaces.{HereAt, DecidesAt};
ghost use Rattle.decision.specs.RulesAt.{partition_of};

use decision::Decision;
use decision::operands::fixed;
use frame::operators::PARTITION;
use nav::Places;

// partition at place k.
pub fn rewrite_partition(places: &Places<'_>, k: usize) -> Option<Decision>
    requires { HereAt places.now k }
    ensures { DecidesAt partition_of places.now k result }
{
    let tag = places.tag_at(k);
    if tag != PARTITION {
        return None;
    }
    let a = k + 1;
    let b = places.second_of(k);
    let m = places.arity_at(k);
    if m == 1 {
        return fixed(14, a, a, k);
    }
    if m == 2 {
        return fixed(15, a, b, k);
    }
    None
}
