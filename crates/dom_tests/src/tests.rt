// Tests by tables.
mod reading;
mod zeros;
