// The review of a list of seats, called from C and Rust.
ghost use Rattle.tazbilk.specs.Reviewing.{Exported};

// The review of a list of seats for a round file, with what it says as four numbers.
#[unsafe(no_mangle)]
pub extern "C" fn tazbilk_review(file: &[u8], list: &[u8], work: &mut [u8], res: &mut [u64; 4])
    ensures { Exported file.now list.now work.old res.new work.new }
{
    tazbilk::reviewing::tazbilk_review(file, list, work, res);
}
