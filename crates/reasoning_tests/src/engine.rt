//! The engine on nets whose answers were worked out by hand, and against all assignments on small drawn nets.
mod answers;
mod drawn;
mod extending;
mod parts;
