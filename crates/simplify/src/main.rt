// The program `simplify`: reads frames as lines of capital hexadecimal from standard input, runs each with budget 65,535 and
// prints the answer word, the count of steps and the last frame, or REFUSED and the number.
#![tactic(auto)]

mod stream; // stream.rt: from the input to the output

use crate::stream::answer_input;

fn main(rt: HostRuntime) {
    let mut input = rt.stdin();
    let mut output = rt.stdout();
    if let Err(failure) = answer_input(&mut input, &mut output) {
        let _ = eprintln!(rt; "simplify: {failure}");
    }
}
