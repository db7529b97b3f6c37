//! Bodies in data files.
mod blocks;
mod folders;
mod talks;
