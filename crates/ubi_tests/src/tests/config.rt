mod faults;
mod records;
mod sections;
mod shown;
