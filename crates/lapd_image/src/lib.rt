//! The octets of an image: how what a card holds is written as octets, and read again.
//!
//! An image is a list of octets, the same on every processor. What a part of a card is in it, its own crate says
//! (`specs/Image.antt` there); this crate has numbers, lists and contents, of which all images are made.
//!
//! - `writing`: `put_octet` and its like, which write into a room from a place on;
//! - `reader`: [`Reader`], which takes octets from the front of an image;
//! - `fault`: [`BadImage`], why an image is refused.
#![tactic(auto)]

mod fault;
mod reader;
mod writing;

pub use fault::BadImage;
pub use reader::Reader;
pub use writing::{put_contents, put_number, put_octet, put_octets};
