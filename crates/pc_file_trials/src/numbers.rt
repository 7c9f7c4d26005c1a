mod divisor;
mod fit;
mod fraction;
mod memory;
mod order;
mod put;
mod scaled;
