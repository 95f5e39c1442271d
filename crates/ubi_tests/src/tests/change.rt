mod changes;
mod hidden;
mod images;
mod memory;
mod places;
mod rename;
mod update;
