// The shelves of the archive.
ghost use Rattle.std.specs.Prelude.{Some};
ghost use Rattle.shipping.specs.Shelves.{name_of, ReadsShelf};

use std::fmt;
use std::str::FromStr;

#[derive(Clone, Copy, Debug, PartialEq, Eq)]
pub enum Shelf {
    // Impulse responses of rooms.
    Response,
    // Meshes of their walls.
    Mesh,
    // Logs of the rays that were traced.
    RayLog,
}

impl fmt::Display for Shelf {
    ghost output = { λ s. Some (name_of s) };

    fn fmt<W: fmt::Write>(&self, f: &mut fmt::Formatter<W>) -> fmt::Result {
        match *self {
            Shelf::Response => f.write_str("response"),
            Shelf::Mesh => f.write_str("mesh"),
            Shelf::RayLog => f.write_str("raylog"),
        }
    }
}

// No shelf has this name.
#[derive(Clone, Copy, Debug, PartialEq, Eq)]
pub struct UnknownShelf;

// The shelf that is printed so. No other text is a shelf.
impl FromStr for Shelf {
    type Err = UnknownShelf;

    ghost from_str_gives = { ReadsShelf };

    fn from_str(name: &str) -> Result<Shelf, UnknownShelf> {
        match name {
            "response" => Ok(Shelf::Response),
            "mesh" => Ok(Shelf::Mesh),
            "raylog" => Ok(Shelf::RayLog),
            _ => Err(UnknownShelf),
        }
    }
}
