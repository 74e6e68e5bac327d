//! `run` and its devices, and a `Collector`.
mod devices;
mod inputs;
mod taken;
