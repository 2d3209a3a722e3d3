// The allotment, called from C and Rust.
ghost use Rattle.tazbilk.specs.Allotting.{Exported};

// The allotment of a round file, with the answer as three numbers.
#[unsafe(no_mangle)]
pub extern "C" fn tazbilk_allot(file: &[u8], answer: &mut [u8], work: &mut [u8], res: &mut [u64; 3])
    ensures { Exported file.now answer.old work.old
        res.new answer.new work.new }
{
    tazbilk::allotting::tazbilk_allot(file, answer, work, res);
}
