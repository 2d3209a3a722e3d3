// The worked rounds of document 01, in its order, and two more that its words fix; then, for document 02, Point 6, file A in the wide form, an input of
// 65,536 bytes and one of a byte more; then, for its Point 7, file A with its steps written as a list, and a list in which vacancies go through three
// steps to a fourth: what is printed for each.
#![tactic(auto)]

mod rounds;

use page::{page_room, put_page};
use std::io;

// Prints what is printed for an input.
fn show(rt: &impl Print, file: &[u8]) -> io::Result<()> {
    let mut page = page_room();
    let length = put_page(&mut page, file);
    rt.write_all(&page[..length])
}

fn main(rt: HostRuntime) -> io::Result<()> {
    // The longest input that is read is all but the last byte.
    let too_long = [0; 65537];
    let inputs: [&[u8]; 21] = [
        rounds::FILE_A,
        rounds::A_OPEN_ONLY,
        rounds::A_OPEN_ONLY_POLICY_0,
        rounds::MOVED_BETWEEN_TYPES,
        rounds::EMPTY_ROW,
        rounds::NO_POSITIONS,
        rounds::ABSENT_FROM_MERIT,
        rounds::EMPTY_FILE,
        rounds::CUT_71,
        rounds::ONE_BYTE_MORE,
        rounds::OPEN_RESERVED_2_OF_1,
        rounds::CANDIDATE_1_LISTS_OBC,
        rounds::LAST_MERIT_2,
        rounds::OBC_AND_LAST_MERIT_2,
        rounds::TYPE_WITHOUT_POSITIONS,
        rounds::TAKEN_AS_OPEN_NOT_OBC,
        rounds::A_WIDE,
        &too_long[..65536],
        &too_long,
        rounds::STEPS_A,
        rounds::STEPS_CHAIN,
    ];
    for input in inputs {
        show(&rt, input)?;
    }
    Ok(())
}
