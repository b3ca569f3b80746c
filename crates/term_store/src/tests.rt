//! Terms, commands and definitions, worked by hand.
mod chain;
mod command_depths;
mod keeping;
mod kinds;
mod values;
