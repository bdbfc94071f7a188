//! A fleet on a map.
use grid_cells::{Agent, Cell, Grid, Step};
use mapf_rules::Visit;
use plan_table::{Mode, Plans, Row};
use std::alloc::Global;
use std::process::Abort;
use test_support::open_grid;

/// How an agent goes that comes to a fleet.
#[derive(Clone, Copy)]
pub enum Manner {
    /// By chance, for a few steps.
    Wandering,
    /// Behind the agent of the next number, along a lane round the map's first two rows.
    InConvoy,
    /// To and fro, for two hundred steps and more.
    ToAndFro,
}

/// A fleet on its map, of which the agents' numbers are below that of `agents`.
#[derive(Drop)]
pub struct Fleet {
    pub plans: Plans,
    pub grid: Grid,
    pub mode: Mode,
    pub agents: u32,
    pub manner: Manner,
}

impl Fleet {
    /// Nobody, on an open map of that width and height.
    pub fn new(
        rt: &impl Abort,
        alloc: Global,
        mode: Mode,
        (width, height): (u32, u32),
        agents: u32,
        manner: Manner,
    ) -> Fleet {
        Fleet {
            plans: Plans::new(alloc),
            grid: open_grid(alloc, width, height).expect(rt, "a map"),
            mode,
            agents,
            manner,
        }
    }

    /// How many agents come through the cell.
    pub fn visitors(&self, cell: Cell) -> usize {
        let mut count = 0usize;
        for rank in 0..self.plans.count() {
            let (_, row) = self.plans.entry_at(rank);
            if row.plan.cells().contains(&cell) {
                count = count.saturating_add(1);
            }
        }
        count
    }

    /// When which agents come through the cell.
    pub fn visits(&self, rt: &impl Abort, alloc: Global, cell: Cell) -> Vec<Visit> {
        let mut visits = Vec::new(alloc);
        for rank in 0..self.plans.count() {
            let (agent, row) = self.plans.entry_at(rank);
            for number in 0..row.plan.last() + 1 {
                let time = Step::new(number);
                if row.plan.at(time) == cell {
                    let visit = Visit { agent, time, cell };
                    visits.push(visit).expect(rt, "memory");
                }
            }
        }
        visits
    }

    /// Gives the agent the row.
    pub fn set(&mut self, rt: &impl Abort, agent: Agent, row: Row) {
        let _ = self.plans.remove(agent);
        self.plans.make_room().expect(rt, "memory");
        self.plans.insert(agent, row);
    }
}
