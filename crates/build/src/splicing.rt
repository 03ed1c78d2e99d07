// The new frame: the old one with one subtree replaced.
ghost use Rattle.build.specs.SplicePosts.{SplicePre, SplicePost};

use crate::build;
use decision::Decision;
use decision::kept::Kept;
use nav::Places;
use put::Writer;

// The frame's bytes with those of the decision's subtree in the place of the subtree at place k, and nothing else, if they fit.
pub fn splice(places: &Places<'_>, k: usize, kept: &Kept, decision: Decision, out: &mut Writer)
    requires { SplicePre places.now k kept.now.items decision }
    ensures { SplicePost places.now k kept.now.items decision out.new }
{
    let from = places.start_at(k);
    let to = places.end_at(k);
    out.clear();
    out.put_copy(&places.bytes[..from]);
    build(places, k, kept, decision, out);
    out.put_copy(&places.bytes[to..]);
}
