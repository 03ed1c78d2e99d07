// One step at a place of a frame: the frame is checked, the rules decide at the place, the new frame is written.
#![tactic(auto)]

ghost use Rattle.std.specs.Prelude.{◌≡◌, length};
ghost use Rattle.step.specs.Step.{step as stepped, step_answer, step_output};
ghost use Rattle.stepping.specs.Posts.{HeldPre, StepPost};

use build::splicing::splice;
use decision::kept::Kept;
use frame::refusals::Refusal;
use nav::Places;
use output::write_out;
use put::Writer;
use reading::Frame;
use rewriter::dispatch::decide;
use step::Step;

// The step at place k of an accepted frame.
fn step_held(places: &Places<'_>, k: usize, out: &mut [u8]) -> Result<Step, Refusal>
    requires { HeldPre places.now }
    ensures { StepPost places.now.bytes.now k out.old out.new result }
{
    if places.count <= k || places.is_expression_at(k) {
        return Err(Refusal::NoPlace);
    }
    let mut kept = Kept::new();
    let Some(decision) = decide(places, k, &mut kept) else {
        return Ok(Step::Unchanged);
    };
    let mut writer = Writer::new();
    splice(places, k, &kept, decision, &mut writer);
    write_out(writer.frame(), out)
}

// The step at a place of a frame; the output is lent.
pub fn step(frame: &[u8], place: usize, out: &mut [u8]) -> Result<Step, Refusal>
    ensures { (result ≡ step_answer (stepped frame.now place (length out.old))) × (out.new ≡ step_output (stepped frame.now place (length out.old)) out.old) }
{
    let read = reading::read(frame)?;
    let mut leaves = [0u16; 2048];
    let nodes = checking::check_tree(&Frame::new(frame), read.nodes, &mut leaves)?;
    let mut table = [0u16; 2048];
    nav::nexts(frame, nodes, &read.starts, &mut table);
    let places = Places {
        bytes: frame,
        count: nodes,
        starts: &read.starts,
        nexts: &table,
        leaves: &leaves,
    };
    step_held(&places, place, out)
}
