mod check;
mod ec;
mod geometry;
mod name;
mod record;
mod vid;
