//! The parts of a buffer that are reached, each once for each type that it is reached as.
use fb_index::HashKey;
use fb_read::{Part, Step};
use fb_schema::{Kind, TypeId};
use indexmap::IndexSet;
use std::alloc::{AllocError, Global};

/// What a part is reached as.
#[derive(Clone, Copy, Drop)]
pub(crate) enum Lead {
    Table(TypeId),
    /// The vtable of a table of this type.
    Vtable(TypeId),
    Text,
    /// A vector with elements of this kind.
    Vector(Kind),
}

impl Lead {
    /// What a part is reached as.
    pub(crate) fn of(part: Part) -> Lead {
        match part {
            Part::Table(table) => Lead::Table(table),
            Part::Text => Lead::Text,
            Part::Vector(kind) => Lead::Vector(kind),
        }
    }

    /// A pair of numbers that no other type has.
    fn key(self) -> (u8, u64) {
        match self {
            Lead::Table(table) => (0, table.0),
            Lead::Vtable(table) => (1, table.0),
            Lead::Text => (2, 0),
            Lead::Vector(Kind::Text) => (3, 0),
            Lead::Vector(Kind::Scalar(base)) => (4, base as u64),
            Lead::Vector(Kind::Enum(values)) => (5, values.0),
            Lead::Vector(Kind::Struct(structure)) => (6, structure.0),
            Lead::Vector(Kind::Table(table)) => (7, table.0),
            Lead::Vector(Kind::Union(union)) => (8, union.0),
            Lead::Vector(Kind::Code(union)) => (9, union.0),
        }
    }
}

/// A part, and the reference that first led to it.
#[derive(Clone, Copy, Drop)]
pub(crate) struct Node {
    pub lead: Lead,
    pub at: u32,
    /// The part that the reference is in, and which of its slots or elements it is. The root is its own parent.
    pub parent: u32,
    pub number: u32,
    /// How many references lead to it, counted for each type of the part that they are in.
    pub references: u32,
    /// The number of what is known of its visit.
    pub visit: Option<usize>,
}

/// The parts that were reached, by number.
#[derive(Drop)]
pub(crate) struct Nodes {
    nodes: Vec<Node>,
}

// Each step but a reference's takes two characters of a path at least.
const MOST_STEPS: usize = 64;

impl Nodes {
    /// Notes the number of what is known of a part's visit.
    pub(crate) fn set_visit(&mut self, number: u32, visit: usize) {
        if let Some(node) = self.nodes.get_mut(number as usize) {
            node.visit = Some(visit);
        }
    }

    /// The number of what is known of a part's visit.
    pub(crate) fn visit_of(&self, number: u32) -> Option<usize> {
        self.nodes.get(number as usize)?.visit
    }

    /// A part by its number.
    pub(crate) fn get(&self, number: u32) -> Option<Node> {
        self.nodes.get(number as usize).copied()
    }

    /// The steps from the root to a part and a step further, the last one first, as far as a line may show them.
    pub(crate) fn steps_back(
        &self,
        alloc: Global,
        number: u32,
        last: Step,
    ) -> Result<Vec<Step>, AllocError> {
        let mut steps = Vec::new(alloc);
        steps.push(last)?;
        let mut number = number;
        for _ in 0..MOST_STEPS {
            let Some(node) = self.get(number) else {
                return Ok(steps);
            };
            if node.parent == number {
                return Ok(steps);
            }
            steps.push(self.step_to(&node))?;
            number = node.parent;
        }
        Ok(steps)
    }

    /// The step to a part from the one that its reference is in.
    fn step_to(&self, node: &Node) -> Step {
        match self.get(node.parent) {
            Some(
                Node {
                    lead: Lead::Table(table),
                    ..
                },
            ) => Step::Slot(table, node.number.min(65535) as u16),
            _ => Step::Element(node.number),
        }
    }
}

/// The parts that a walk has reached so far, and how one is found again.
#[derive(Drop)]
pub(crate) struct Reached {
    keys: IndexSet<(u32, (u8, u64)), HashKey>,
    pub nodes: Nodes,
}

impl Reached {
    /// None yet; the key is that of a hash of positions.
    pub(crate) fn new(alloc: Global, key: HashKey) -> Reached {
        Reached {
            keys: IndexSet::with_hasher(alloc, key),
            nodes: Nodes {
                nodes: Vec::new(alloc),
            },
        }
    }

    /// The parts, once all are reached. So no type that others see holds the map.
    pub(crate) fn into_nodes(self) -> Nodes {
        let Self { keys: _, nodes } = self;
        nodes
    }

    /// The number of the part at a position, and whether it is reached for the first time.
    ///
    /// `from` is the part that the reference is in, and which of its slots or elements it is. `counts` says whether the
    /// reference is counted.
    pub(crate) fn reach(
        &mut self,
        lead: Lead,
        at: u32,
        from: (u32, u32),
        counts: bool,
    ) -> Result<(u32, bool), AllocError> {
        let (parent, number) = from;
        let (index, is_new) = self.keys.insert_full((at, lead.key()))?;
        if is_new {
            let node = Node {
                lead,
                at,
                parent,
                number,
                references: 1,
                visit: None,
            };
            self.nodes.nodes.push(node)?;
        } else if counts && let Some(node) = self.nodes.nodes.get_mut(index) {
            node.references = node.references.saturating_add(1);
        }
        let number = u32::try_from(index).map_err(|_| AllocError)?;
        Ok((number, is_new))
    }
}
