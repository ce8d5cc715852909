// How a written FAT sector is judged, over the lent table.

#![tactic(auto)]

mod applied;
mod entries;
mod fat_sector;
mod gathered;
pub mod sectors;
pub mod values;
