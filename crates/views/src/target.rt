// Which halves of a doubled participant a message reaches.
ghost use Rattle.std.specs.Prelude.{◌≡◌};
ghost use Rattle.views.specs.Routes.{target_of};

#[derive(Clone, Copy, PartialEq, Eq, Debug)]
pub enum SplitTarget {
    None,
    Primary,
    Secondary,
    Both,
}

impl SplitTarget {
    // By whether the primary half is reached, and whether the secondary is.
    pub(crate) fn of(primary: bool, secondary: bool) -> SplitTarget
        ensures { result ≡ target_of primary secondary }
    {
        match (primary, secondary) {
            (false, false) => SplitTarget::None,
            (true, false) => SplitTarget::Primary,
            (false, true) => SplitTarget::Secondary,
            (true, true) => SplitTarget::Both,
        }
    }
}
