//! The cells of a net: the delay of each node on a target, the cells of the whole design, and their charge to the target's ledger.
ghost use Rattle.std.specs.Prelude.{◌≡◌, ◌≤◌, ◌++◌, [], All, map, replicate, option_to_list, IfOk, OnOk, IfSome};
ghost use Rattle.opgen_design.specs.declared.design.TheConstants.{MAX_SIGNALS};
ghost use Rattle.opgen_net.specs.Valid.{IsValid, MayStand, widths as widths_of};
ghost use Rattle.opgen_net.specs.Classes.{classes};
ghost use Rattle.opgen_net.specs.declared.cell.Class.{Class};
ghost use Rattle.opgen_target.specs.Delays.{IsTableWidth, setup};
ghost use Rattle.opgen_target.specs.Ledger.{ledger_of, width_sum, with_cell};
ghost use Rattle.opgen_pipe.specs.Cells.{cell_of, design_cells, net_delays, node_delay, register_of};
ghost use Rattle.opgen_pipe.specs.Copies.{signal_count};
ghost use Rattle.opgen_pipe.specs.Layouts.{IsLayout, schedule_of};

use crate::layout::Layout;
use crate::widths::slice_width;
use opgen_net::{Cell, Class, Net, Node};
use opgen_target::Target;
use std::alloc::{AllocError, Global};

// The cell of a node, over the widths of the nodes. Inputs and constants have none.
fn cell_of(widths: &[u32], node: &Node) -> Option<Cell>
    requires widths { All IsTableWidth widths.now }
    requires stands { MayStand widths.now node.now }
    ensures cell { result ≡ cell_of widths.now node.now }
    ensures wide { IfSome result (λ c. IsTableWidth c.width) }
{
    let (class, width) = match node {
        Node::Input { .. } | Node::Constant(_) => return None,
        Node::Cells { class, width, .. } => (*class, *width),
        Node::Choice { yes, .. } => (Class::Choice, slice_width(widths, *yes)),
        Node::Table { address, .. } => (Class::Table, widths[*address]),
        Node::Delay { of } => (Class::Register, widths[*of]),
    };
    Some(Cell { class, width })
}

// How long after its operands a node has its word, in picoseconds.
fn node_delay(widths: &[u32], target: &Box<dyn Target>, node: &Node) -> u32
    requires widths { All IsTableWidth widths.now }
    requires stands { MayStand widths.now node.now }
    ensures { result ≡ node_delay (delays target.now) widths.now node.now }
{
    if let Node::Delay { .. } = node {
        return 0;
    }
    match cell_of(widths, node) {
        Some(cell) => target.delay(cell),
        None => 0,
    }
}

/// What a register needs before the end of a cycle, in picoseconds.
pub(crate) fn setup_time(target: &Box<dyn Target>) -> u32
    ensures { result ≡ setup (delays target.now) }
{
    target.delay(Cell {
        class: Class::Register,
        width: 1,
    })
}

/// The delay of each node of a net.
pub(crate) fn net_delays(
    alloc: Global,
    net: &Net,
    widths: &[u32],
    target: &Box<dyn Target>,
) -> Result<Vec<u32>, AllocError>
    requires valid { IsValid net.now }
    requires widths { widths.now ≡ widths_of net.now.nodes }
    ensures { IfOk result (λ v. v.items ≡ net_delays (delays target.now) net.now) }
{
    let nodes = net.nodes.as_slice();
    let mut delays = Vec::new(alloc);
    'nodes: for node in nodes {
        delays.push(node_delay(widths, target, node))?;
    }
    Ok(delays)
}

// Appends a register of a width for each copy of a node.
fn push_registers(cells: &mut Vec<Cell>, copies: usize, width: u32) -> Result<(), AllocError>
    ensures { OnOk result (cells.new.items ≡ cells.old.items ++ replicate copies (register_of width)) }
{
    'copies: for _ in 0..copies {
        cells.push(Cell {
            class: Class::Register,
            width,
        })?;
    }
    Ok(())
}

// Appends the cells of a node: its own, and a register for each copy.
fn push_cells(
    cells: &mut Vec<Cell>,
    own: Option<Cell>,
    copies: usize,
    width: u32,
) -> Result<(), AllocError>
    ensures { OnOk result (cells.new.items ≡ cells.old.items ++ (option_to_list own ++ replicate copies (register_of width))) }
{
    match own {
        Some(cell) => {
            cells.push(cell)?;
            push_registers(cells, copies, width)
        }
        None => push_registers(cells, copies, width),
    }
}

// The cells of a net's design.
fn design_cells(
    alloc: Global,
    net: &Net,
    widths: &[u32],
    layout: &Layout,
) -> Result<Vec<Cell>, AllocError>
    requires valid { IsValid net.now }
    requires widths { widths.now ≡ widths_of net.now.nodes }
    requires layout { IsLayout net.now layout.now }
    ensures { IfOk result (λ v. v.items ≡ design_cells net.now (schedule_of layout.now)) }
{
    let nodes = net.nodes.as_slice();
    let standings = layout.standings.as_slice();
    let mut cells = Vec::new(alloc);
    'nodes: for (place, node) in nodes.iter().enumerate() {
        let own = standings[place];
        push_cells(&mut cells, cell_of(widths, node), own.copies, own.width)?;
    }
    Ok(cells)
}

// Adds a cell to the ledger of a target.
fn charge(target: &mut Box<dyn Target>, cell: Cell)
    requires { IsTableWidth cell.width }
    ensures ledger { ledger target.new ≡ with_cell cell (ledger target.old) }
    ensures target_name { target_name target.new ≡ target_name target.old }
    ensures delays { delays target.new ≡ delays target.old }
    ensures adjustable { adjustable target.new ≡ adjustable target.old }
{
    target.charge(cell);
}

// Charges these cells, and no others, to the ledger of a target.
fn charge_all(target: &mut Box<dyn Target>, cells: &[Cell])
    requires { All (λ c. IsTableWidth c.width) cells.now }
    ensures ledger { ledger target.new ≡ ledger_of cells.now }
    ensures target_name { target_name target.new ≡ target_name target.old }
    ensures delays { delays target.new ≡ delays target.old }
    ensures adjustable { adjustable target.new ≡ adjustable target.old }
{
    target.clear();
    'cells: for cell in cells {
        charge(target, *cell);
    }
}

// The number of a class in the ledger of a target.
fn charged(target: &Box<dyn Target>, class: Class) -> u64
    ensures { result ≡ ledger target.now class }
{
    target.charged(class)
}

// The number of each class in the ledger.
fn ledger(target: &Box<dyn Target>) -> [u64; 6]
    ensures { result ≡ map (ledger target.now) classes }
{
    let mut numbers = [0; 6];
    'classes: for (place, class) in Class::ALL.iter().enumerate() {
        numbers[place] = charged(target, *class);
    }
    numbers
}

/// Charges the cells of a net's design, and no others, to the ledger of a target. Returns the number of each class.
pub(crate) fn charge_design(
    alloc: Global,
    net: &Net,
    widths: &[u32],
    layout: &Layout,
    target: &mut Box<dyn Target>,
) -> Result<[u64; 6], AllocError>
    requires valid { IsValid net.now }
    requires widths { widths.now ≡ widths_of net.now.nodes }
    requires layout { IsLayout net.now layout.now }
    requires few { signal_count net.now (schedule_of layout.now) ≤ MAX_SIGNALS }
    ensures cells { IfOk result (λ cells. cells ≡ map (width_sum (design_cells net.now (schedule_of layout.now))) classes) }
    ensures ledger { IfOk result (λ _. (class : Class) → ledger target.new class ≡ width_sum (design_cells net.now (schedule_of layout.now)) class) }
    ensures target_name { target_name target.new ≡ target_name target.old }
    ensures delays { delays target.new ≡ delays target.old }
    ensures adjustable { adjustable target.new ≡ adjustable target.old }
{
    let cells = design_cells(alloc, net, widths, layout)?;
    charge_all(target, &cells);
    Ok(ledger(target))
}
