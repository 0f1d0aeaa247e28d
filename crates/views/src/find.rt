// Looking for a name in a list.
ghost use Rattle.std.specs.Prelude.{◌≡◌, map};
ghost use Rattle.views.specs.Routes as routes;

use crate::name::Name;

// The place of the first name that is the same, if there is one.
pub(crate) fn place_of<N: Name>(sender: &N, names: &[N]) -> Option<usize>
    ensures { result ≡ routes.first_place (N.meaning sender.now) (map N.meaning names.now) }
{
    names.iter().position(|name| name.same(sender))
}

// Whether one of the names is the same.
pub(crate) fn is_listed<N: Name>(sender: &N, names: &[N]) -> bool
    ensures { result ≡ routes.holds (N.meaning sender.now) (map N.meaning names.now) }
{
    place_of(sender, names).is_some()
}
