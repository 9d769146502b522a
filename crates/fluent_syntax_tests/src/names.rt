//! What files say of names, and what is found in them.

mod entries;
mod findings;
mod local;
mod missing_parts;
mod places;
mod plural_categories;
