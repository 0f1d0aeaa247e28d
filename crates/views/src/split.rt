// The split of the names at a view, with no script.
ghost use Rattle.std.specs.Prelude.{◌≡◌, map};
ghost use Rattle.views.specs.Memories as memories;
ghost use Rattle.views.specs.Splits as splits;

use crate::find::is_listed;
use crate::name::Name;
use crate::parts::put_parts;
use crate::target::SplitTarget;
use refusals::Refusal;
use terms::TermLength;

// Where the names are cut at a view, unless the term length or the list of names is refused. A script refuses for its rounds first
// and takes an empty list, so the two tests that both make stand in each.
fn cut_of<N>(view: u64, term: u32, names: &[N]) -> Result<usize, Refusal>
    ensures { memories.UnlessFault (splits.split_fault term names.now) (λ cut. cut ≡ splits.cut_at term view names.now) result }
{
    let term = TermLength::new(term)?;
    if names.len() > 64 {
        return Err(Refusal::ManyNames);
    }
    if names.is_empty() {
        return Err(Refusal::NoNames);
    }
    Ok(term.start(view) as usize % names.len())
}

// Writes the names before the cut of this view into the first memory, the others into the second, and answers how many.
pub fn view_partitions<N: Name>(
    view: u64,
    term: u32,
    names: &[N],
    primary: &mut [N],
    secondary: &mut [N],
) -> Result<(usize, usize), Refusal>
    ensures { splits.SplitTold term view names.now primary.old secondary.old result primary.new secondary.new }
{
    let cut = cut_of(view, term, names)?;
    put_parts(&names[..cut], &names[cut..], primary, secondary)
}

// Which part of the split of this view holds the sender.
pub fn view_route<N: Name>(
    view: u64,
    term: u32,
    sender: &N,
    names: &[N],
) -> Result<SplitTarget, Refusal>
    ensures told { splits.SplitRouteTold term view (N.meaning sender.now) (map N.meaning names.now) result }
    ensures agrees { splits.SplitAgrees N.meaning term view (N.meaning sender.now) names.now result }
{
    let cut = cut_of(view, term, names)?;
    let first = is_listed(sender, &names[..cut]);
    let second = is_listed(sender, &names[cut..]);
    if first || second {
        Ok(SplitTarget::of(first, second))
    } else {
        Err(Refusal::UnknownSender)
    }
}
