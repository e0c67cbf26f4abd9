//! Windows on a desk's boards: a wall keeps them as its list of entries makes them, and views look at them without waiting.
#![tactic(auto)]

mod boards;
mod change;
mod copies;
mod follow;
mod front;
mod laws;
mod logbook_rule;
mod look;
mod members;
mod new_wall;
mod note;
mod offer_told;
mod offers;
mod published;
mod shelf;
mod showing;
mod shown_board;
mod spot;
mod view;
mod wall;
mod wall_list;
mod wall_name;

pub use look::Look;
pub use new_wall::NewWall;
pub use note::Note;
pub use showing::Showing;
pub use spot::Spot;
pub use view::View;
pub use wall::Wall;
pub use wall_name::{Logbook, WallName};
