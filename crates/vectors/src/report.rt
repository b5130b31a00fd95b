// What is printed of a call.
use rules::Answer;
use std::io;

// Its number, the ending, the code or step, the count, the logical address, the next address, and the checksum of all
// that is there afterwards.
pub(crate) fn answer(rt: &impl Print, number: u32, answer: Answer, sum: u32) -> io::Result<()> {
    let Answer {
        ending,
        count,
        guest,
    } = answer;
    let end = ending.number();
    let code = ending.code();
    let address = ending.address();
    let next = guest.instruction_address();
    println!(rt; "{number} {end} {code} {count} {address:06x} {next:06x} {sum:08x}")
}
