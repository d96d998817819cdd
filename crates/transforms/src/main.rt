// Speaks the text protocol on standard input and output: a line for an operation, a line for its answer.
#![tactic(auto)]

mod answer;
mod input;
mod memory;
mod operation;
mod values;

use memory::Memory;
use text::Writer;

// The lent memory is 65,536 samples, some 4 MB of the stack. It stands here and not in a function that answers it,
// which a compiler that does not optimise would copy.
fn main(rt: HostRuntime) {
    let mut head = [0u64; memory::HEAD_WORDS];
    let mut instants = [0u64; memory::SAMPLES];
    let mut poses = [0.0f64; memory::FLOATS];
    let mut map = [0u8; memory::MAP_BYTES];
    let mut out = [0u8; input::ANSWER_BYTES];
    let mut memory = Memory::new(&mut head, &mut instants, &mut poses, &mut map);
    let mut writer = Writer::new(&mut out);
    input::run(&rt, &mut memory, &mut writer);
}
