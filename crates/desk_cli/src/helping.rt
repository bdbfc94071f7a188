//! What the program says of itself.

/// The program's name and version, and the checker's logic that it is proved with.
pub const VERSION: &str = "mapf_desk 1.0.0\nproved with rattle-kit-13f logic dac8208d650f15bf";

/// What a person reads who is to type a map, and a session after it.
pub(crate) const MAP_PROMPT: &str = "\
mapf_desk: type a map first: type octile, height H, width W, map, and H rows of W letters, . for
open and @ for closed; then a session line at a time, as: agent 0 0,0 2,0. The end of input (Ctrl-D)
ends the session; mapf_desk serve --help, typed in a shell, lists all lines.";

/// What a person reads who is to type a session.
pub const SESSION_PROMPT: &str = "\
mapf_desk: type a session line at a time, as: agent 0 0,0 2,0, or: report. The end of input (Ctrl-D)
ends the session; mapf_desk serve --help, typed in a shell, lists all lines.";

pub(crate) const ABOUT: &str =
    "A live plan desk for multi-agent path finding: it takes planners' edits of one \
map's agents and paths, and reports conflicts, costs and bounds that are always current.";

pub(crate) const PROGRAM_HELP: &str = "\
serve answers a planner's lines, one by one; audit makes a report from scratch, in threads; drill
runs planners' scripts at once over one shared desk, and audits what they leave; host shares a desk
among planners that are programs of their own; check gives a verdict on the paths that a solver
wrote; draw makes a picture for a browser, and page a page that plays the plans there. With no words,
mapf_desk is mapf_desk serve: a map stands first on standard input, and a session follows it.

Three lines of a session, and what they are answered:
  agent 0 0,0 2,0            version 1
  path 0 0,0 1,0 2,0         version 2
  solves vertex swap         solves yes

Statuses: 0 done; 1 the paths that were checked are no solution, or an audit differs; 2 a fault,
reported on standard error in one line, or in two with --verbose if more is known of it.
All lines: docs/PROTOCOL.md; files: docs/FILES.md; words and faults: docs/CLI.md; the rules: docs/RULES.md.

Example:
  printf 'type octile\\nheight 1\\nwidth 3\\nmap\\n...\\nagent 0 0,0 2,0\\nreport\\n' | mapf_desk";

pub(crate) const SERVE_HELP: &str = "\
Each line of standard input is answered on standard output by one line, but for blank lines and
remarks (#), which have no answer, and report, whose answer ends with the line end. A cell is X,Y.

An edit is committed at once:
  agent A START GOAL    a new agent           path A CELL..         its path, from its start
  drop A                it goes               tail A TIME CELL..    the path goes on from TIME
  goal A X,Y            another goal          open X,Y  close X,Y   a cell of the map
Several edits in one commit, all or none: begin, edits and watch lines, then commit or cancel.
Questions: version; report; distance A X,Y; solves KIND.. of vertex, edge, follow, swap, cycle.
What solvers call an edge conflict, two agents that change places, is swap; edge is two agents that
make the same move.
With --lines 2 also: report A.., of these agents alone; plan A, its goal and path; cell X,Y, open or
closed; at TIME X,Y, the agents there; wait VERSION SECONDS, the version once it is above that one;
changes VERSION, what has changed in the report since; try, what a commit would change.

With --save F the journal is in F when the session is over, in place of one that was there: Ctrl-D
ends it, Ctrl-C kills it and saves nothing. With --journal F the next session goes on from there; both
may name one file.
With --log F in their place each commit is in F before it is answered, so that it outlives the end of
the program at any moment: the next session with --log F goes on from there.

Statuses: 0 the input has ended; 2 a fault, reported on standard error.

Example:
  mapf_desk serve --map demo/warehouse.map --scen demo/warehouse.scen --agents 10 --save plan";

pub(crate) const AUDIT_HELP: &str = "\
The report is made from scratch: nothing that a desk keeps is used. Each worker is a thread of its
own and reports on its share of the agents.

Statuses: 0 done; 2 a fault, reported on standard error.

Example:
  mapf_desk audit --map demo/warehouse.map --scen demo/warehouse.scen --agents 10 --workers 4";

pub(crate) const DRILL_HELP: &str = "\
Each script is a session, as serve takes it with the same --lines, and is served as a planner of its
own: the first is planner 1. The scripts run at once and their answers aren't kept. At the end the
version and the report are printed, and audit same if a report made from scratch is the same, else
audit differs.
With --verbose a line on standard error says for each script how many of its lines were accepted,
refused and bad, as: demo/east.script: 6 accepted, 0 refused, 0 bad

Statuses: 0 audit same; 1 audit differs; 2 a fault, reported on standard error.

Example:
  mapf_desk drill --map demo/corridor.map demo/east.script demo/west.script";

pub(crate) const HOST_HELP: &str = "\
Each planner is a program of its own, in any language. It writes lines to NAME.in, as serve takes
them with --lines 2, and reads their answers from NAME.out: two pipes that were made by mkfifo, or
any files. The first is planner 1. Standard input and output are the operator's session, planner 0.
An answer goes out before more is read. A planner that breaks off, also within a line, harms nobody
else.

The host waits for a planner that doesn't come, with --wait S no longer than S seconds. When all
inputs have ended it saves the journal, with --save F, and prints audit same if a report made from
scratch is that of the desk, else audit differs. With --log F each commit is in F before anybody is
shown it, as with serve.

Statuses: 0 audit same; 1 audit differs; 2 a fault, reported on standard error with the planner's NAME.

Example:
  mkfifo east.in east.out west.in west.out
  mapf_desk host --map demo/corridor.map east west";

pub(crate) const CHECK_HELP: &str = "\
A solver's paths are read in one of these forms, recognised by the first line of one:
  time      solution= or not, and lines 0:(X,Y),(X,Y),    as LaCAM and PIBT print them
  agent     lines Agent 0: (ROW,COLUMN)->(ROW,COLUMN)->   as CBS, EECBS, PBS and MAPF-LNS2 do
  session   lines path 0 X,Y X,Y                          as serve takes them
  moves     rows of letters u d l r w, from the starts    as MAPF Tracker has them, also in a CSV file
                                                          with a column solution_plan; needs --scen
  json      {\"start\": [[ROW,COLUMN],..],                  as the League of Robot Runners and PlanViz
             \"actualPaths\": [\"R,D,W\",..], ..}             do where robots don't turn
  schedule  schedule:, agent0:, - x: X, y: Y, t: 0        as libMultiRobotPlanning does, a line each
Blank lines and remarks (#) mean nothing, and by time, agent and schedule other lines may stand before
the paths and behind them. Agents may come in any order, and be numbered from 1.
Starts and goals are the scenario's first tasks; without a scenario they are what the file of paths
says, and else the first and the last cells of the paths.

check prints the report, as audit does, and solves yes or solves no: yes if every agent comes to its
goal, no path crosses a closed cell, and there is no conflict of the kinds that count. What
solvers call an edge conflict, two agents that change places, is swap; edge is two agents that make
the same move. With --only the report lists no conflicts of other kinds. The paths of - come on
standard input.

With one of these lines it is solves no, whatever the report says:
  wrong AGENT TIME WHY CELL..   the agent's path isn't one, by its first cell at fault
  differs WHAT ..               the number of paths, or agents=, starts= or goals= of their file, isn't
                                that of the scenario, of --agents or of the paths; or stands there twice
  no paths                      the file has none, as a solver prints that found none
There is no report with lines wrong, or with no paths.
With --json all of this is one JSON object. Costs of the file, soc= and makespan= (cost: and makespan:), that aren't those of
the report are reported on standard error in a line note: each, and change no verdict.

Statuses: 0 solves yes; 1 solves no; 2 a fault, reported on standard error: there is no verdict.

Example:
  mapf_desk check --map demo/corridor.map --scen demo/corridor.scen --paths demo/corridor.paths";

pub(crate) const DRAW_HELP: &str = "\
The picture is one SVG on standard output, of the scene that audit makes of a journal, or check of a
solver's paths. It marks each conflict and each visit to a closed cell that the report lists, in its
place, and the mark's title is the report's line. Without --at the agents move, 0.4 seconds a step,
and each conflict is lit for the step of its time. With --agents-shown the other agents and their
paths aren't drawn; what the report lists is marked all the same. With --solves the heading has the
colour of the verdict that check gives for these kinds.

Statuses: 0 done; 2 a fault, reported on standard error.

Example:
  mapf_desk draw --map demo/corridor.map --paths demo/corridor.paths > corridor.svg";

pub(crate) const PAGE_HELP: &str = "\
The page is one HTML file on standard output, which loads nothing: of the scene that audit makes of a
journal, or check of a solver's paths, and of its report. In a browser it plays the plans, steps and
zooms; a click on a line of the report goes to its time and place, and one on an agent shows its path
and what it meets. The verdict is that of check for the kinds of --solves; conflicts of other kinds
are shown if they are asked for there.

Statuses: 0 done; 2 a fault, reported on standard error.

Example:
  mapf_desk page --map demo/corridor.map --paths demo/corridor.meeting > corridor.html";

/// What is said of a range of agents that is none.
pub(crate) const RANGE_MISTAKE: &str =
    "invalid value for '--agents-shown <A-B>': two numbers of agents, the lesser first, as 0-9";
