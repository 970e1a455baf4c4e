//! Texts that are read, and sources whose texts are read again.

use crate::again::{comes_back, is_read};
use crate::fail::Fail;

/// Texts, and how many bits each has: one more than the greatest bit that it names or that a path
/// through a decision reaches.
static READ: [(&[u8], u32); 29] = [
    // the table's example, as it is put, and a function without a value
    (
        b"int f ( int a , int b ) {\nunsigned mcdc_r [ 1 ] ;\nMCDC_H ( 0 ) ;\n{\nMCDC_H ( 2 ) ;\n{\nint mcdc_v = MCDC_D ( 0 , 3 , MCDC_C ( 0 , 0 , 2 , a ) && MCDC_C ( 0 , 0 , 1 , b ) ) ;\nMCDC_H ( 1 ) ;\nreturn mcdc_v ;\n}\n}\n}\n",
        6,
    ),
    (
        b"void f ( int x ) {\nunsigned mcdc_r [ 1 ] ;\nMCDC_H ( 0 ) ;\n{\nMCDC_H ( 3 ) ;\nif ( MCDC_D ( 0 , 5 , MCDC_C ( 0 , 0 , 1 , x ) ) ) {\nMCDC_H ( 4 ) ;\n{\nMCDC_H ( 1 ) ;\nreturn ;\n}\n}\n}\nMCDC_H ( 2 ) ;\n}\n",
        7,
    ),
    // the function of the table's example
    (
        b"int f(int a,int b){unsigned mcdc_r[1];MCDC_H(0);{MCDC_H(2);{int mcdc_v=MCDC_D(0,3,MCDC_C(0,0,2,a)&&MCDC_C(0,0,1,b));MCDC_H(1);return mcdc_v;}}}",
        6,
    ),
    // with a blank and a comment more
    (
        b"int f ( int a , int b ) {  unsigned mcdc_r [ 1 ] ; /* entry */ MCDC_H(0);{MCDC_H(2);{int mcdc_v=MCDC_D(0,3,MCDC_C(0,0,2,a)&&MCDC_C(0,0,1,b));MCDC_H(1);return mcdc_v;}}}",
        6,
    ),
    (
        b"void f(int x){unsigned mcdc_r[1];MCDC_H(0);{MCDC_H(3);if(MCDC_D(0,5,MCDC_C(0,0,1,x))){MCDC_H(4);{MCDC_H(1);return;}}}MCDC_H(2);}",
        7,
    ),
    // no text, and no probe
    (b"", 0),
    (b"int a;", 0),
    (b"int f(int a,int b){return a&&b;}", 0),
    // one probe is missing: the registers with all that name one, the entry, a statement's, the exit of a `return`, a decision's, a condition's
    (
        b"int f(int a,int b){MCDC_H(0);{MCDC_H(2);{int mcdc_v=a&&b;MCDC_H(1);return mcdc_v;}}}",
        3,
    ),
    (
        b"int f(int a,int b){unsigned mcdc_r[1];{MCDC_H(2);{int mcdc_v=MCDC_D(0,3,MCDC_C(0,0,2,a)&&MCDC_C(0,0,1,b));MCDC_H(1);return mcdc_v;}}}",
        6,
    ),
    (
        b"int f(int a,int b){unsigned mcdc_r[1];MCDC_H(0);return MCDC_D(0,3,MCDC_C(0,0,2,a)&&MCDC_C(0,0,1,b));}",
        6,
    ),
    (
        b"int f(int a,int b){unsigned mcdc_r[1];MCDC_H(0);{MCDC_H(2);return MCDC_D(0,3,MCDC_C(0,0,2,a)&&MCDC_C(0,0,1,b));}}",
        6,
    ),
    (
        b"int f(int a,int b){unsigned mcdc_r[1];MCDC_H(0);{MCDC_H(2);{int mcdc_v=MCDC_C(0,0,2,a)&&MCDC_C(0,0,1,b);MCDC_H(1);return mcdc_v;}}}",
        3,
    ),
    (
        b"int f(int a,int b){unsigned mcdc_r[1];MCDC_H(0);{MCDC_H(2);{int mcdc_v=MCDC_D(0,3,a&&MCDC_C(0,0,1,b));MCDC_H(1);return mcdc_v;}}}",
        5,
    ),
    // a factor is the whole comparison
    (
        b"int f(int x,int a,int b){unsigned mcdc_r[1];return x*MCDC_D(0,1,a<b);}",
        2,
    ),
    // braces of a probe keep an `else`
    (
        b"int s;void f(int a,int b){if(a){MCDC_H(1);if(b)s=1;}else s=2;}",
        2,
    ),
    // an exit at the end of a body that cannot complete
    (
        b"int f(void){{MCDC_H(0);{int mcdc_v=1;MCDC_H(2);return mcdc_v;}}MCDC_H(7);}",
        8,
    ),
    // a statement's probe round a bare `return`
    (b"void f(int a){if(a){MCDC_H(9);return;}}", 10),
    // labels, and a `switch` without `default`
    (
        b"void f(int a){unsigned mcdc_r[1];MCDC_H(0);{MCDC_H(2);switch(MCDC_W(0,a)){case 1:MCDC_L(0,4);case 2:MCDC_L(0,5);{MCDC_H(3);;}}MCDC_L(0,6);}MCDC_H(1);}",
        7,
    ),
    (
        b"void f(char c){unsigned mcdc_r[1];{MCDC_H(2);switch(MCDC_W(0,c)){default:MCDC_L(0,3);;}}}",
        4,
    ),
    // several round one operand
    (
        b"int f(int a){unsigned mcdc_r[2];return MCDC_C(0,0,1,MCDC_W(1,MCDC_D(1,5,a)));}",
        6,
    ),
    (
        b"int f(char c){unsigned mcdc_r[2];return MCDC_D(0,0,MCDC_W(1,c))+c;}",
        1,
    ),
    // a leaf that is no condition of the register adds nothing
    (
        b"int f(int a,int b){unsigned mcdc_r[2];return MCDC_D(0,10,MCDC_C(1,7,7,a)||!MCDC_C(0,3,4,b));}",
        15,
    ),
    // full operators go through both operands
    (
        b"int f(int a,int b){unsigned mcdc_r[1];return MCDC_D(0,10,MCDC_C(0,1,2,a)^MCDC_C(0,4,8,b));}",
        21,
    ),
    (
        b"int f(int a,int b){unsigned mcdc_r[1];return MCDC_D(0,10,MCDC_C(0,0,16,a)&&MCDC_C(0,0,1,b));}",
        27,
    ),
    // the last bit
    (
        b"int f(int a){unsigned mcdc_r[1];return MCDC_D(0,65535,a);}",
        65536,
    ),
    (b"void f(void){MCDC_H(65535);}", 65536),
    // where an index, an argument, a test, a clause of `for` and an initializer are evaluated
    (
        b"int a[3];int g(int x){return x;}int f(int x){unsigned mcdc_r[9];int y=MCDC_C(0,0,1,x);int b[2]={MCDC_C(1,0,1,x),0};for(a[MCDC_C(2,0,1,x)]=1;MCDC_C(3,0,1,x);y+=MCDC_C(4,0,1,x))x=g(MCDC_C(5,0,1,x));do{MCDC_H(0);;}while(MCDC_C(6,0,1,x));return x?MCDC_C(7,0,1,x):MCDC_C(8,0,1,x);}",
        1,
    ),
    // declarations
    (
        b"void f(int a){MCDC_H(0);MCDC_H(2);int b=a;{MCDC_H(3);int c=a,d;}MCDC_H(1);}",
        4,
    ),
];

#[test]
fn texts_that_are_read(rt: HostRuntime) -> Result<(), Fail> {
    for (text, bits) in &READ {
        let same = is_read(rt.alloc(), *text, *bits)?;
        assert!(rt; same, "a text with {bits} bits");
    }
    Ok(())
}

/// Sources: small ones, and then the examples.
static SOURCES: [&str; 26] = [
    "int f(int a,int b){return a&&b;}",
    "void f(int x){if(x)return;}",
    "",
    "int a;",
    "int a[2]={1,2};static const int b=3;",
    "int f(int a,int b){switch(a){case 0:if(b>a)return 1;case 1:switch(b){case 2:return a<b;default:;}default:b=2;}switch((a<b)){case 7:b=3;}return b;}",
    "void f(char c){switch((c)){case 1:case 2:c=1;}}",
    "int f(int a,int b,int c){return a<b==c;}",
    "void f(int a){if(a==1)a=2;else if(a==2)a=3;else a=4;}",
    "void f(int a){for(;;){if(a)break;}}int g(int a){for(int i=0;i<a&&a;i++){if(i==3)continue;a--;}do a++;while(a<9);while(a)a-=1;return a;}",
    "static const unsigned long f(const int a){return (unsigned long)a;}",
    "struct S{int m;int n[2];};struct S g(struct S s){s.n[1]=s.m?s.m:1;return s;}int f(int a){struct S s={a,{1,a||a}};struct S t=g(s);return t.n[a!=0];}",
    "typedef int T;T f(T a){T b=a,c;static T d=4;{c=b;}return !c&&(d||!a);}",
    "_Bool f(_Bool a,_Bool b,_Bool c){return a&b|c^!a;}",
    "int g(int b[2]){b[0]++;return b[0];}void f(void){int a[2]={0};g(a);(void)g(a);a[g(a)?1:0]=g(a);}",
    "void f(void){}void g(int a){a?f():(void)a;}",
    "int f(int a){return a?a&&a:a||!a;}",
    "enum E{A,B=5};int f(enum E e){switch(e){case A:return 1;case B:{return 2;}}return 0;}",
    // air_data.c
    "/* The airspeed of a flight. Each cycle reads three sensors. The speeds that agree are averaged, smoothed
   over three cycles and corrected by a table. The mode says how far they may be relied on. */
typedef enum { NORMAL, DEGRADED, FAILED } Mode;
typedef struct { int speed; int age; _Bool heated; } Sensor;
typedef struct { int speed; int count; } Vote;

extern int mcdc_in(void);
extern void mcdc_out(int number);

/* What is to be added to a speed in knots, from each of these speeds on. */
static const int from[6] = { 0, 60, 120, 180, 240, 300 };
static const int correction[6] = { 0, 1, 2, 4, 6, 9 };

static Sensor sensors[3];
static Mode mode;
static int recent[3];
static int filled;
static int good_cycles;

/* The last of the entries from `low` to `high` whose speed is not above this one, as that of `low` is not. */
static int entry(int speed, int low, int high) {
  if (low == high) return low;
  int middle = (low + high + 1) / 2;
  if (from[middle] <= speed) return entry(speed, middle, high);
  return entry(speed, low, middle - 1);
}

static int distance(int a, int b) {
  return a < b ? b - a : a - b;
}

/* Reads a sensor: its speed, which is below 0 where none came, and whether its tube is heated. */
static void take(int number) {
  int speed = mcdc_in();
  sensors[number].heated = mcdc_in();
  if (0 <= speed) {
    sensors[number].speed = speed;
    sensors[number].age = 0;
  } else {
    sensors[number].age++;
  }
}

static _Bool is_usable(Sensor sensor, _Bool icing) {
  return sensor.age < 2 && (sensor.heated || !icing);
}

/* The mean of the usable speeds that lie within 10 knots of another one, and how many they are. */
static Vote vote(_Bool icing) {
  Vote result = { 0 };
  for (int i = 0; i < 3; i++) {
    int next = (i + 1) % 3;
    int last = (i + 2) % 3;
    if (!is_usable(sensors[i], icing)) continue;
    if ((is_usable(sensors[next], icing) && distance(sensors[i].speed, sensors[next].speed) <= 10)
        || (is_usable(sensors[last], icing) && distance(sensors[i].speed, sensors[last].speed) <= 10)) {
      result.speed += sensors[i].speed;
      result.count++;
    }
  }
  if (result.count > 0) result.speed /= result.count;
  return result;
}

/* The mean of the last three speeds, or of as many as there were. */
static int smooth(int speed) {
  int sum = 0;
  int i = 2;
  while (i > 0) {
    recent[i] = recent[i - 1];
    i--;
  }
  recent[0] = speed;
  if (filled < 3) filled++;
  do {
    sum += recent[i];
    i++;
  } while (i < filled);
  return sum / filled;
}

/* One cycle, in icing conditions or not. Puts out the speed, if there is one, and gives the mode. */
int cycle(int icing) {
  for (int i = 0; i < 3; i++) take(i);
  Vote now = vote(icing);
  _Bool is_good = now.count == 3;
  good_cycles = is_good ? good_cycles + 1 : 0;
  switch (mode) {
  case NORMAL:
    if (!is_good) mode = now.count ? DEGRADED : FAILED;
    break;
  case DEGRADED:
    if (now.count == 0) mode = FAILED;
    else if (good_cycles >= 2) mode = NORMAL;
    break;
  default:
    if (is_good) mode = DEGRADED;
  }
  if (mode == FAILED) {
    filled = 0;
    return mode;
  }
  int speed = smooth(now.speed);
  mcdc_out(speed + correction[entry(speed, 0, 5)]);
  return mode;
}
",
    // approach.c
    "/* The approach mode of an autopilot. Each cycle reads the deviations from the localizer and from
   the glide path, in hundredths of a dot, and whether they are valid, and puts out a bank angle. */
typedef enum { STANDBY, ARMED, TRACK, GO_AROUND } Mode;
typedef struct { int localizer; int glide; _Bool valid; } Beam;

extern int mcdc_in(void);
extern void mcdc_out(int bank);

static Mode mode;
static int recent[4];
static int oldest;

static int size(int deviation) {
  return deviation < 0 ? -deviation : deviation;
}

/* The mean of the last four deviations. */
static int smooth(int deviation) {
  int sum = 0;
  recent[oldest] = deviation;
  oldest = (oldest + 1) % 4;
  for (int i = 0; i < 4; i++) sum += recent[i];
  return sum / 4;
}

static void steer(int bank) {
  if (bank < -25 || 25 < bank) bank = bank < 0 ? -25 : 25;
  mcdc_out(bank);
}

/* One cycle: whether the button is pressed, the height in feet, and the distance to the runway in
   yards. Gives the mode. */
int cycle(int pressed, int height, int distance) {
  static const int gain[2] = { 4, 8 };
  Beam beam;
  beam.localizer = mcdc_in();
  beam.glide = mcdc_in();
  beam.valid = mcdc_in();
  if (!beam.valid || height < 0) {
    mode = STANDBY;
    return mode;
  }
  int centred = size(beam.localizer) < 80 && size(beam.glide) < 50;
  switch (mode) {
  case STANDBY:
    if (!pressed) break;
    mode = ARMED; /* and on to the next label */
  case ARMED:
    if ((height < 3000 && centred) || (height < 3000 && distance < 9000)) mode = TRACK;
    break;
  case TRACK:
    if (height < 200 && (!centred || 20 < height * 100 / distance)) mode = GO_AROUND;
    break;
  }
  if (mode == TRACK) steer(smooth(beam.localizer) / gain[centred && height < 500]);
  return mode;
}
",
    // door_alert.c
    "/* Whether the door alert sounds: a door is open and the aircraft moves. */
int door_alert(int open, int speed) {
  return open && 0 < speed;
}
",
    // flap.c
    "# 1 \"flap.c\"
typedef enum { UP, TAKEOFF, LANDING } Lever;
typedef struct { int speed; _Bool ground; } Air;
extern int mcdc_in(void);
void mcdc_out(int angle);
static int angle;
static int target(Lever lever) {
  switch (lever) {
  case UP: return 0;
  case TAKEOFF: return 15;
  case LANDING: return 30;
  default: return 0;
  }
}
int cycle(int lever) {
  Air air;
  air.speed = mcdc_in();
  air.ground = mcdc_in();
  int want = target(lever);
  if (want > 15 && (air.speed > 160 || air.ground)) want = 15;
  if (angle < want) angle += 5;
  else if (angle > want) angle -= 5;
  mcdc_out(angle);
  return angle;
}
",
    // speed_brake.c
    "/* Whether the speed brake extends after touchdown: it is armed, both main gear legs carry weight or
   the wheels turn faster than 60 knots, and no thrust lever stands above 10 degrees. */
int speed_brake(int armed, int left_leg, int right_leg, int wheel_speed, int lever) {
  return armed && (left_leg && right_leg || 60 < wheel_speed) && !(10 < lever);
}
",
    // vanes.c
    "/* Two vanes measure the angle of attack. `^`, `|` and `&` look at both, so neither hides what the other says. */
int disagree(int left, int right, _Bool ground) {
  return ((left > 14) ^ (right > 14)) && !ground;
}
int stall(int left, int right, _Bool ground) {
  return ((left > 14) | (right > 14)) & !ground;
}
",
    // fuel_pump.i, without its line markers and empty lines
    "typedef signed char int8_t;
typedef unsigned char uint8_t;
typedef short int16_t;
typedef unsigned short uint16_t;
typedef int int32_t;
typedef unsigned int uint32_t;
typedef long int64_t;
typedef unsigned long uint64_t;
_Bool pump_runs(_Bool demanded, uint16_t level);
void pump_failed(void);
static uint8_t failures;
_Bool pump_runs(_Bool demanded, uint16_t level)
{
    if ((demanded || level < 120u) && failures <= 2u) {
        return 1;
    }
    return 0;
}
void pump_failed(void)
{
    if (failures < 255u) {
        failures++;
    }
}
",
    // probes.c
    "/* Every insertion of docs/TARGET.md, and values at the ends of the types. It has no other purpose. */
typedef enum { BELOW = -1, LEVEL, ABOVE } Side;
typedef struct { short first; long long second; } Pair;
typedef void Nothing;

int mcdc_in(void);
void mcdc_out(int number);

/* Each test finds the initial values. */
static int ticks = 7;
static const signed char weights[4] = { 1, -2, 4, -8 };

static Nothing tick(int by) {
  static unsigned char calls;
  calls++;
  ticks += by;
  mcdc_out(calls);
}

static _Bool between(long low, long value, long high) {
  return low <= value && value < high;
}

/* Decisions inside of conditions, arguments, indexes and initial values; NOT; one that is a whole statement. */
int nested(int a, int b, int c) {
  int chosen = !(a && b) || c;
  int table[2] = { a < b, b < c };
  a < c;
  if (between(0, table[a != b] + (b > 0 || c > 0), 1 + !c) == chosen) return chosen ? a : b;
  return -chosen;
}

/* Operators that evaluate both operands: between Boolean operands they are of the decision, between others of none. */
unsigned both(unsigned a, unsigned b, unsigned c) {
  unsigned bits = (a < b) & (b < c);
  if ((a != c) | (a == 7u)) bits |= 2u;
  return bits ^ (a >= c) << 2;
}

/* Labels on each other, a label that runs on into the next one, a switch in a switch, none with a default. */
int labels(Side side, char mark) {
  int sum = 0;
  switch (side) {
  case BELOW:
  case LEVEL:
    sum += 1;
    switch (mark) {
    case 'a':
      sum += 10;
    case '\\377':
      sum += 100;
    }
  case ABOVE:
    sum += 1000;
    break;
  case 7: {
    sum -= 1;
  }
  }
  return sum;
}

/* Each loop, with and without its parts. */
void loops(int count) {
  int left = count;
  for (int i = 0, j = count > 2; i < count && j < 5; i++, j += i == 1) {
    if (i == 1) continue;
    mcdc_out(i);
  }
  while (left > 0) left -= 2;
  do {
    left++;
    switch (left) {
    case 2: continue;
    case 4: break;
    default: mcdc_out(left);
    }
  } while (left < 5);
  for (;;) {
    if (!mcdc_in()) break;
    tick(2);
  }
  if (left == 6) return;
  else if (ticks > 9) {
    tick(-1);
    return;
  }
  ;
}

/* Each activation has its own registers. */
int depth(int n, int bound) {
  if (n > 0 && (depth(n - 1, bound) < bound || n == 3)) return n;
  return weights[n & 3];
}

/* Both operands of an operator are calls, in an order that the compiler chooses. */
int calls(int a, int b, int c) {
  return between(a, b, c) & !between(b, c, 9) | depth(a & 3, b) > 1;
}

static Pair swap(Pair pair) {
  Pair swapped = { (short)pair.second, pair.first };
  return swapped;
}

long long structures(short first, long second) {
  Pair pair = { first, second };
  pair = swap(pair);
  return pair.second < pair.first || pair.first < 0 ? pair.first : pair.second;
}

/* A condition is true where it differs from 0 in its own type. */
unsigned long wide(unsigned long value, long long other) {
  if (value && other) return value - 1ul;
  return other ? (unsigned long)other : value;
}

extern long const narrow(signed char value, _Bool flag, unsigned short other) {
  if (value && (flag || other)) return value;
  return -9223372036854775807 - 1;
}
",
];

#[test]
fn texts_of_sources(rt: HostRuntime) -> Result<(), Fail> {
    for source in &SOURCES {
        let same = comes_back(rt.alloc(), *source)?;
        assert!(rt; same, "{source}");
    }
    Ok(())
}
