//! The verb `pool`: points numbered.
use crate::steps::TakesSteps;
use crate::written::Written;
use city_doc::VertexPool;
use city_model::OutOfMemory;
use city_model::object::Point;
use std::alloc::Global;

/// A step is the three coordinates of a point. The point is added, and its number is the answer.
impl TakesSteps for VertexPool {
    fn take_step(&mut self, _alloc: Global, step: &str, said: &mut Written) {
        let mut numbers = step.split_whitespace();
        let x = number_of(numbers.next());
        let y = number_of(numbers.next());
        let z = number_of(numbers.next());
        match self.add(Point { x, y, z }) {
            Ok(number) => said.show(&number),
            Err(OutOfMemory) => said.run_out(),
        }
    }
}

fn number_of(word: Option<&str>) -> i64 {
    word.unwrap_or("0").parse::<i64>().unwrap_or(0)
}
