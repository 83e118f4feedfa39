//! What a line asks.

use loop_nest::{Graph, is_graph};
use path_solver::section::{CertLoop, Section};
use price_search::VisitFact;
use std::alloc::Global;
use std::num::ParseIntError;
use std::str::FromStr;
use test_rows::RowFault;

/// A graph with the cost of each node, the bound of each loop and what an entry of it loads: nothing is
/// said of a region that doesn't fit.
#[derive(Drop)]
pub struct Problem {
    pub graph: Graph,
    pub costs: Vec<u64>,
    pub bounds: Vec<u32>,
    pub loads: Vec<Option<u64>>,
}

/// What a line asks.
#[derive(Drop)]
pub enum Question {
    /// The loops of a graph, or what its reduction leaves.
    Nest(Graph),
    /// The basic blocks of a graph.
    Blocks(Graph),
    /// How many loops and blocks a graph has.
    Counts(Graph),
    /// The value of the greatest walk alone.
    Value(Problem),
    /// The greatest walk.
    Longest(Problem),
    /// The greatest walk, where it is said of each loop whether it is a region.
    Regions(Problem, Vec<bool>),
    /// The greatest walk, found in several ways.
    Walks(Problem),
    /// The greatest walk with prices of facts.
    Prices(Problem, Vec<VisitFact>),
    /// The check of a section with an index of its loops, and whether the check without an index is asked, too.
    Check(Problem, Section, bool),
    /// So many nodes, one after another.
    Chain(u32),
}

/// The numbers of a field.
fn numbers_of<N: FromStr<Err = ParseIntError> + Drop>(
    alloc: Global,
    field: &str,
) -> Result<Vec<N>, RowFault> {
    let mut numbers = Vec::new(alloc);
    for word in field.split_whitespace() {
        numbers.push(word.parse::<N>()?)?;
    }
    Ok(numbers)
}

/// An edge such as `0-1`.
fn edge(word: &str) -> Result<(u32, u32), RowFault> {
    let (u, v) = word.split_once('-').ok_or(RowFault::Malformed)?;
    Ok((u.parse()?, v.parse()?))
}

/// A listed node with its potential, such as `0:76`.
fn potential(word: &str) -> Result<(u32, i128), RowFault> {
    let (u, p) = word.split_once(':').ok_or(RowFault::Malformed)?;
    Ok((u.parse()?, p.parse()?))
}

/// The load of a loop, or `-` for a region that doesn't fit.
fn load(word: &str) -> Result<Option<u64>, RowFault> {
    match word {
        "-" => Ok(None),
        load => Ok(Some(load.parse()?)),
    }
}

/// Whether a loop is a region: `1` or `0`.
fn flag(word: &str) -> Result<bool, RowFault> {
    match word {
        "0" => Ok(false),
        "1" => Ok(true),
        _ => Err(RowFault::Malformed),
    }
}

/// Of each loop whether it is a region.
fn flags(alloc: Global, regions: &str) -> Result<Vec<bool>, RowFault> {
    regions.split_whitespace().map(flag).try_collect(alloc)
}

/// The members of a loop, such as `1,2`.
fn members_of(alloc: Global, field: &str) -> Result<Vec<u32>, RowFault> {
    let mut members = Vec::new(alloc);
    for word in field.split(',') {
        members.push(word.parse::<u32>()?)?;
    }
    Ok(members)
}

/// A loop, such as `1:7:1,2`.
fn certified_loop(alloc: Global, word: &str) -> Result<CertLoop, RowFault> {
    let Some((header, rest)) = word.split_once(':') else {
        return Err(RowFault::Malformed);
    };
    let Some((cost, members)) = rest.split_once(':') else {
        return Err(RowFault::Malformed);
    };
    let (header, cost) = (header.parse()?, cost.parse()?);
    Ok(CertLoop::new(header, cost, members_of(alloc, members)?, false))
}

/// The graph of three fields: its nodes, edges and exits.
fn graph(alloc: Global, fields: &[&str]) -> Result<Graph, RowFault> {
    let [nodes, edges, exits] = fields else {
        return Err(RowFault::Malformed);
    };
    let nodes = nodes.parse::<u32>()?;
    let edges: Vec<(u32, u32)> = edges.split_whitespace().map(edge).try_collect(alloc)?;
    let exits: Vec<u32> = numbers_of(alloc, exits)?;
    if !is_graph(nodes, &edges, &exits) {
        return Err(RowFault::Malformed);
    }
    Ok(Graph::new(nodes, edges, exits))
}

/// The problem of six fields: its graph, and then its costs, bounds and loads.
fn read_problem(alloc: Global, fields: &[&str]) -> Result<Problem, RowFault> {
    let [nodes, edges, exits, costs, bounds, loads] = fields else {
        return Err(RowFault::Malformed);
    };
    let costs = numbers_of(alloc, costs)?;
    let bounds = numbers_of(alloc, bounds)?;
    let loads = loads.split_whitespace().map(load).try_collect(alloc)?;
    Ok(Problem {
        graph: graph(alloc, &[*nodes, *edges, *exits])?,
        costs,
        bounds,
        loads,
    })
}

/// The loops of a section.
fn certified_loops(alloc: Global, loops: &str) -> Result<Vec<CertLoop>, RowFault> {
    let mut certified = Vec::new(alloc);
    for word in loops.split_whitespace() {
        certified.push(certified_loop(alloc, word)?)?;
    }
    Ok(certified)
}

/// A section, with these marks of its loops.
fn marked(section: Section, regions: &[bool]) -> Result<Section, RowFault> {
    if regions.len() != section.loops().len() {
        return Err(RowFault::Malformed);
    }
    Ok(section.with_regions(regions))
}

/// The section of three fields: its nodes, its loops and which of these are regions.
fn section(alloc: Global, fields: &[&str]) -> Result<Section, RowFault> {
    let [nodes, loops, regions] = fields else {
        return Err(RowFault::Malformed);
    };
    let nodes: Vec<(u32, i128)> = nodes.split_whitespace().map(potential).try_collect(alloc)?;
    let section = Section::new(nodes, certified_loops(alloc, loops)?);
    marked(section, &flags(alloc, regions)?)
}

/// A problem, and of each loop whether it is a region.
fn regions(alloc: Global, fields: &[&str]) -> Result<Question, RowFault> {
    if fields.len() != 7 {
        return Err(RowFault::Malformed);
    }
    let problem = read_problem(alloc, &fields[..6])?;
    Ok(Question::Regions(problem, flags(alloc, fields[6])?))
}

/// A fact such as `2<=3`, or `2<=3/0` for visits from each entry of loop 0 to the next.
fn fact(word: &str) -> Result<VisitFact, RowFault> {
    let (node, rest) = word.split_once("<=").ok_or(RowFault::Malformed)?;
    let node = node.parse()?;
    match rest.split_once('/') {
        Some((most, number)) => Ok(VisitFact {
            node,
            most: most.parse()?,
            loop_number: Some(number.parse()?),
        }),
        None => Ok(VisitFact {
            node,
            most: rest.parse()?,
            loop_number: None,
        }),
    }
}

/// A problem and its facts.
fn prices(alloc: Global, fields: &[&str]) -> Result<Question, RowFault> {
    if fields.len() != 7 {
        return Err(RowFault::Malformed);
    }
    let facts: Vec<VisitFact> = fields[6].split_whitespace().map(fact).try_collect(alloc)?;
    Ok(Question::Prices(read_problem(alloc, &fields[..6])?, facts))
}

/// A problem and a section, and whether both checks are asked.
fn check(alloc: Global, fields: &[&str], both: bool) -> Result<Question, RowFault> {
    if fields.len() != 9 {
        return Err(RowFault::Malformed);
    }
    let problem = read_problem(alloc, &fields[..6])?;
    Ok(Question::Check(problem, section(alloc, &fields[6..])?, both))
}

/// How many nodes follow one another.
fn chain(fields: &[&str]) -> Result<Question, RowFault> {
    match fields {
        [nodes] => Ok(Question::Chain(nodes.parse()?)),
        _ => Err(RowFault::Malformed),
    }
}

impl Question {
    /// What some fields ask.
    fn of_fields(alloc: Global, fields: &[&str]) -> Result<Question, RowFault> {
        let [word, rest @ ..] = fields else {
            return Err(RowFault::Malformed);
        };
        match *word {
            "nest" => graph(alloc, rest).map(Question::Nest),
            "blocks" => graph(alloc, rest).map(Question::Blocks),
            "counts" => graph(alloc, rest).map(Question::Counts),
            "value" => read_problem(alloc, rest).map(Question::Value),
            "longest" => read_problem(alloc, rest).map(Question::Longest),
            "walks" => read_problem(alloc, rest).map(Question::Walks),
            "regions" => regions(alloc, rest),
            "prices" => prices(alloc, rest),
            "check" => check(alloc, rest, true),
            "index" => check(alloc, rest, false),
            "chain" => chain(rest),
            _ => Err(RowFault::Malformed),
        }
    }

    /// What a line asks.
    pub fn parse(alloc: Global, line: &str) -> Result<Question, RowFault> {
        let mut fields = Vec::new(alloc);
        for field in line.split('|') {
            fields.push(field.trim())?;
        }
        Question::of_fields(alloc, &fields)
    }
}
