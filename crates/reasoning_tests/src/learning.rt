//! Refuting at each depth, on nets whose answers were worked out by hand, and against all assignments on drawn nets.
mod answers;
mod drawn;
mod refuters;
