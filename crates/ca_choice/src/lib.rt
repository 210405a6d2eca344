//! A choice of the next bit of a search: the cheapest row of the defect and the cheapest way out, and of what
//! these want the costliest value first.
#![tactic(auto)]

mod ahead;
mod cell_cubes;
mod cell_tables;
mod choice;
mod cone;
mod costs;
mod cube;
mod followed;
mod goal;
mod goals;
mod outlets;
mod past;
mod plan;
mod points;
mod prices;
mod route;
mod row_cubes;
mod row_goals;
mod scene;
mod sight;
mod tables;
mod trial;
mod tries;
mod wants;
mod ways;

pub use choice::CheapestWay;
