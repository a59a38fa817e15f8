//! Whole texts of VHDL and reports that tests expect.

/// The VHDL of three times four unsigned bits.
pub(crate) const TIMES3: &str = r#"library ieee;
use ieee.std_logic_1164.all;
use ieee.numeric_std.all;

entity times3 is
  port (
    clk : in std_logic;
    x : in std_logic_vector(3 downto 0);
    y : out std_logic_vector(5 downto 0)
  );
end entity;

architecture rtl of times3 is
  signal s0 : unsigned(3 downto 0);
  signal s1 : unsigned(5 downto 0);
begin
  s0 <= unsigned(x);
  with s0 select s1 <=
    "000000" when "0000",
    "000011" when "0001",
    "000110" when "0010",
    "001001" when "0011",
    "001100" when "0100",
    "001111" when "0101",
    "010010" when "0110",
    "010101" when "0111",
    "011000" when "1000",
    "011011" when "1001",
    "011110" when "1010",
    "100001" when "1011",
    "100100" when "1100",
    "100111" when "1101",
    "101010" when "1110",
    "101101" when others;
  y <= std_logic_vector(s1);
end architecture;
"#;

/// The VHDL of a third of four bits in two stages: a table of two thirds, rounded, and the sum with half a unit.
pub(crate) const THIRD: &str = r#"library ieee;
use ieee.std_logic_1164.all;
use ieee.numeric_std.all;

entity third is
  port (
    clk : in std_logic;
    x : in std_logic_vector(3 downto 0);
    y : out std_logic_vector(2 downto 0)
  );
end entity;

architecture rtl of third is
  signal s0 : unsigned(3 downto 0);
  signal s1 : unsigned(3 downto 0);
  signal s1_1 : unsigned(3 downto 0) := "0000";
  signal s2 : unsigned(3 downto 0);
  signal s3 : unsigned(3 downto 0);
begin
  s0 <= unsigned(x);
  with s0 select s1 <=
    "0000" when "0000",
    "0001" when "0001",
    "0001" when "0010",
    "0010" when "0011",
    "0011" when "0100",
    "0011" when "0101",
    "0100" when "0110",
    "0101" when "0111",
    "0101" when "1000",
    "0110" when "1001",
    "0111" when "1010",
    "0111" when "1011",
    "1000" when "1100",
    "1001" when "1101",
    "1001" when "1110",
    "1010" when others;
  s2 <= "0001";
  s3 <= s1_1 + s2;
  process (clk)
  begin
    if rising_edge(clk) then
      s1_1 <= s1;
    end if;
  end process;
  y <= std_logic_vector(s3(3 downto 1));
end architecture;
"#;

/// The report of a third of four bits for the target `plain` at a period of 900 ps, with the enable and without.
pub(crate) const THIRD_REPORT: &str = "operator third
kind scale
mode faithful
target plain
period 900
latency 1
slack 0
input x unsigned 4 0
output y unsigned 3 0
cells wire 0 logic 0 add 4 choice 0 table 4 register 4
signals 5
";
