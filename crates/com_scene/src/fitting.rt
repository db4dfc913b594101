//! Whether the numbers of an entry fit, in constant time.

ghost use Rattle.std.specs.Prelude.{◌↔◌, IsTrue};
ghost use Rattle.com_scene.specs.Ranges.{FitsDeed, IsInterface};

use com_body::Asked;
use com_model::Deed;

// Whether an interface that is given by its number has a number of 16 bits. One that is given by its GUID has
// no number, and fits.
fn is_interface(iface: &Asked) -> bool
    ensures { IsTrue result ↔ IsInterface iface.now }
{
    match iface {
        Asked::Number(number) => *number < 0x1_0000,
        Asked::Guid(_) => true,
    }
}

/// Whether an entry fits: an Enter has at most four arguments, and in a Made or a Query that names an object
/// the interface, if it is given by its number, has a number of 16 bits. Every other entry fits, also a Made
/// or a Query that names no object.
pub fn fits_deed(deed: &Deed) -> bool
    ensures { IsTrue result ↔ FitsDeed deed.now }
{
    match deed {
        Deed::Enter { values, .. } => values.len() <= 4,
        Deed::Made { object, iface, .. } => object.is_none() || is_interface(iface),
        Deed::Query { object, iface, .. } => object.is_none() || is_interface(iface),
        _ => true,
    }
}
