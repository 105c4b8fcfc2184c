// Every choice of grades for the first blocks of a photograph, one after the other, counted by plain sums.
use crate::photographs::Photograph;
use crate::plain::Plain;

// A choice, with its bits and its cost. There is a grade for each block that a photograph can have; later ones count for nothing.
#[derive(Clone, Copy, PartialEq, Eq)]
pub(crate) struct Counted {
    pub(crate) grades: [usize; 4],
    pub(crate) bits: u32,
    pub(crate) cost: u32,
}

impl Counted {
    // The grade of block n, counted from 1; 0 where there is none.
    fn grade_of(&self, n: usize) -> usize {
        n.checked_sub(1)
            .and_then(|at| self.grades.get(at).copied())
            .unwrap_or(0)
    }
}

// The first blocks of a photograph.
#[derive(Clone, Copy)]
pub(crate) struct Blocks<'a> {
    pub(crate) photograph: &'a Photograph,
    pub(crate) count: usize,
}

// One row of grades for each number: its digits, the first block's the lowest.
fn row(number: usize) -> [usize; 4] {
    [number % 4, number / 4 % 4, number / 16 % 4, number / 64 % 4]
}

impl Blocks<'_> {
    // How many rows of grades there are for the blocks.
    fn rows(&self) -> usize {
        [1, 4, 16, 64, 256][self.count.min(4)]
    }

    // The bits and the cost of the grades; none where one of them is not offered.
    pub(crate) fn count<K: Plain>(&self, grades: [usize; 4]) -> Option<Counted> {
        let mut bits = 0u32;
        let mut cost = 0u32;
        let mut before = None;
        for (n, grade) in grades.into_iter().enumerate().take(self.count) {
            let (rate, distortion) = self.photograph.offer(n, grade)?;
            let charge = self.photograph.charge(before, grade);
            bits = bits.saturating_add(charge).saturating_add(rate);
            cost = K::plain_join(cost, distortion);
            before = Some(grade);
        }
        Some(Counted { grades, bits, cost })
    }

    // A choice of at most the budget at which a plan ends: the least cost, then the fewest bits, then the lowest last grade.
    pub(crate) fn best_within<K: Plain>(&self, budget: u32) -> Option<Counted> {
        (0..self.rows())
            .filter_map(|number| self.count::<K>(row(number)))
            .filter(|choice| choice.bits <= budget)
            .min_by_key(|choice| (choice.cost, choice.bits, choice.grade_of(self.count)))
    }

    // Of the choices that end in this grade with exactly these bits the cheapest, then the one of the lowest grade before.
    fn cheapest_at<K: Plain>(&self, grade: usize, bits: u32) -> Option<Counted> {
        (0..self.rows())
            .filter_map(|number| self.count::<K>(row(number)))
            .filter(|choice| choice.grade_of(self.count) == grade && choice.bits == bits)
            .min_by_key(|choice| (choice.cost, choice.grade_of(self.count.saturating_sub(1))))
    }

    // The fewest bits through the ceiling of a choice that costs at most the bound.
    pub(crate) fn fewest_within<K: Plain>(&self, bound: u32) -> Option<u32> {
        (0..self.rows())
            .filter_map(|number| self.count::<K>(row(number)))
            .filter(|choice| choice.cost <= bound && choice.bits <= self.photograph.ceiling)
            .map(|choice| choice.bits)
            .min()
    }

    // The grades of the plan that ends as this choice does: back from there, each time the lowest grade that gives the cheapest
    // choice for the blocks so far.
    pub(crate) fn way_back<K: Plain>(&self, end: Counted) -> [usize; 4] {
        let mut grades = [0; 4];
        let mut grade = end.grade_of(self.count);
        let mut bits = end.bits;
        for (n, entry) in grades[..self.count.min(4)].iter_mut().enumerate().rev() {
            *entry = grade;
            let blocks = Blocks {
                photograph: self.photograph,
                count: n + 1,
            };
            if let Some(way) = blocks.cheapest_at::<K>(grade, bits) {
                let before = Blocks {
                    photograph: self.photograph,
                    count: n,
                };
                grade = way.grade_of(n);
                bits = before
                    .count::<K>(way.grades)
                    .map_or(0, |choice| choice.bits);
            }
        }
        grades
    }
}
