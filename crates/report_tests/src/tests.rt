mod altered;
mod counts;
mod fronts;
mod reading;
mod sample;
mod small;
