//! What the program tells of itself.
ghost use Rattle.std.specs.Prelude.{◌≡◌, ◌≢◌, []};
ghost use Rattle.command_words.specs.Notices.{notice_text};

use crate::commands::Notice;

/// The line for the version.
const VERSION_LINE: &str = "compile_program 1.0.0\n";

/// The help: what the program does, its commands, keys and statuses, and examples.
const HELP: &str = "\
compile_program: 0-1 optimization problems as QUBO and Ising models, each translation proved right.

Commands. KEYS are words NAME=VALUE, in any order, each at most once; they may be left out.
  compile FORMAT TARGET FILE KEYS                  writes the model of FILE
  size FORMAT TARGET FILE KEYS                     writes how large that model and its weights are
  decode FORMAT TARGET FILE STATE KEYS             writes what a state of it stands for in FILE
  evaluate FORMAT TARGET FILE STATES KEYS          writes cost and energy of each state; the best
  extend FORMAT TARGET FILE ASSIGNMENT KEYS        writes a state that stands for an assignment
  solve FORMAT TARGET FILE KEYS                    writes the first least state, and the optimum
  prove FORMAT TARGET FILE STATE CERTIFICATE KEYS  writes the optimum that a certificate proves
  sample NUMBER CLAUSES TARGET KEYS                writes how large a model of random clauses is
  --help, -h                                       writes this text
  --version, -V                                    writes the version

FORMAT is wcnf, wbo, opb, poly, qubo or ising, and FILE is a file in it.
TARGET is qubo (bits), ising (spins), chimera (spins on the qubits of a Chimera graph) or graph
(spins on the qubits of a graph in a file).
STATE, STATES and ASSIGNMENT are files with lines of 0 and 1, or of - and +.
NUMBER is below 2^64 and chooses the clauses; CLAUSES, their count, is at most 100000.

Keys of every command and target, with the usual value first:
  normal=literal|multilinear  keep products of literals, or multiply them out over variables
  high=monomial|rosenberg     replace each long term by itself, or pairs of literals in all of them
  unit=one|reduce             keep the weights, or divide them by what divides them all
  slack=bits|pairs|clauses    slack bits in each constraint, or pairs in those like at-most-one, or
                              these pairs, and clauses in those like at-least-one
  penalty=global|local        one penalty for all hard parts, or a lesser one for each of them
  bound=N                     what costs more than N is infeasible; usually there is no bound
Key of solve, with every target:
  order=NAME                  a file: the nodes as they are eliminated; usually from the last one
Keys of the targets chimera and graph, with every command:
  map=NAME                    a file: chains, on each line a node and its qubits
  chain=choi|cut              tie chains so that no break pays, or so that no least state breaks
Keys of the target chimera, with every command:
  rows=N cols=N shore=N       rows and columns of cells, qubits on a side of a cell; all needed
  embed=clique                the chains of a clique; exactly one of embed and map is needed
  dead=NAME                   a file: qubits and couplers to leave out; usually there are none
Key of the target graph, with every command; it is needed, and map is:
  graph=NAME                  a file: on each line a qubit or the two of a coupler, which work

Statuses. For each but 0 a line on the error output tells more.
  0  done                          6  a file is beyond a limit
  2  a word is wrong or missing    7  the model is not embedded in the graph
  3  a file can't be read          8  a file has no state of the right length
  4  the output can't be written   9  out of memory
  5  a file is not in its format  10  the certificate does not prove the state
                                  11  the model is too wide to be solved

Examples:
  compile_program compile wcnf qubo problem.wcnf >problem.qubo
  compile_program decode opb ising knapsack.opb state unit=reduce
  compile_program solve poly chimera cost.poly rows=2 cols=2 shore=4 embed=clique
";

/// The whole text of a notice.
pub fn notice_text(notice: Notice) -> &'static str
    ensures whole { result.now ≡ notice_text notice }
    ensures some { result.now ≢ [] }
{
    match notice {
        Notice::Help => HELP,
        Notice::Version => VERSION_LINE,
    }
}
