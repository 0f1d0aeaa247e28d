// Writing two lists of names into two memories.
ghost use Rattle.views.specs.Memories as memories;

use refusals::Refusal;

// Writes two lists into the fronts of two memories, unless one of these is too short, and answers how many names each has.
pub(crate) fn put_parts<N: Copy>(
    first: &[N],
    second: &[N],
    primary: &mut [N],
    secondary: &mut [N],
) -> Result<(usize, usize), Refusal>
    ensures { memories.BothWritten first.now second.now primary.old secondary.old result primary.new secondary.new }
{
    if primary.len() < first.len() || secondary.len() < second.len() {
        return Err(Refusal::GroupMemory);
    }
    primary[..first.len()].copy_from_slice(first);
    secondary[..second.len()].copy_from_slice(second);
    Ok((first.len(), second.len()))
}
